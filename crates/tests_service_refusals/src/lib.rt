//! Tests of a service whose requests for memory are refused: its start, its sessions, its calls and its stop. Each is made once as it is,
//! and over an allocator that takes orders (`bin/refusals` builds one) once for each of its requests, of which that one is refused. The
//! calls behind the opening of a service are made without memory.
#![tactic(auto)]

#[cfg(test)]
mod served;
#[cfg(test)]
mod standing;
#[cfg(test)]
mod starts;
#[cfg(test)]
mod without;
