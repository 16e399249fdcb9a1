//! Tests of the release of files without a name, on images of volumes in memory: taken while removed files are open, the release leaves the
//! image that their closes leave. Where another finding stands, or the image is clean, it stays as it is.
#![tactic(auto)]

#[cfg(test)]
mod given_back;
#[cfg(test)]
mod stays;
#[cfg(test)]
mod volumes;
