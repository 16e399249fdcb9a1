//! Laws of mounting, each a function whose contract is the law.

ghost use Rattle.volume_mount.specs.Laws.{ReadsAlone, RefusedByImage, SizesOfImage};

/// Where only reads became pending, what was read with true replies are the image's bytes.
pub fn reads_alone()
    ensures { ReadsAlone }
{}

/// Over true replies a mount that is refused for the volume's layout or by the check is refused by the image itself.
pub fn refused_by_image()
    ensures { RefusedByImage }
{}

/// Over true replies the sizes that a mount reads are those that the image's superblock gives.
pub fn sizes_of_image()
    ensures { SizesOfImage }
{}
