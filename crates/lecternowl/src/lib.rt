//! The file server as a library: all that an application needs, under one name.
//!
//! - An image: [`mkfs`] makes one, [`check`] looks whether it is sound.
//! - A service on its volume: [`serve`] starts one, does [`Task`]s in sessions of it, each in a thread of its own, and stops it.
//! - A session: [`Files`], a method for each client call.
//! - Drivers: [`RamDriver`], [`ModelDriver`], either ([`DiskDriver`]) and [`DiesAfter`], or one's own [`BlockDriver`]; [`Policy`] says when
//!   the next is started.
//! - A run of a schedule of faults, with no threads: [`World`].
#![tactic(auto)]

mod answers;
mod files;
mod keeping;
mod kept_sessions;
mod open_image;
mod refusal;
mod served;
mod sessions;
mod start;
mod tasks;

// images
pub use fsck::{Clean, OutOfMemory, Verdict, check};
pub use new_volume::{MkfsRefusal, mkfs};
pub use volume::Finding;

// drivers, and when the next is started
pub use bdev::{Accept, Answer, BlockDriver, Step};
pub use errno::Errno;
pub use media::Media;
pub use media::partition::Table;
pub use message::{BlockRequest, Kind};
pub use modeldisk::supply::{DiskDriver, setup_for, table_in};
pub use modeldisk::{DiesAfter, ModelDriver, RamDriver};
pub use reincarnate::policy::{Policy, Setup};

// a service, and its sessions
pub use answers::CallError;
pub use archive::{Archive, FileArchive};
pub use board::Device;
pub use files::Files;
pub use keeping::Kept;
pub use locked_image::FilesRefusal;
pub use open_image::{InFile, OpenImage};
pub use refusal::ServeRefusal;
pub use serve::stopping::NoImage;
pub use served::Served;
pub use service_start::volume_mount::StartRefusal;
pub use shared_server::locked::LastSync;
pub use shared_server::refusal::SessionRefusal;
pub use start::{serve, serve_kept};
pub use tasks::{Came, Task};
pub use tree::{
    Attributes, Call, Entry, LinkTarget, MAX_TRANSFER, OpenFlags, Outcome, Reply, Statfs, User,
    Whence, Who,
};
pub use volume_commands::handing::{Handing, NotHanded};

// runs of schedules
pub use schedule::Event;
pub use schedule_text::reading::{Schedule, ScheduleRefusal, read_schedule};
pub use simulation::inputs::File;
pub use simulation::show::SimulationStatus;
pub use simulation::simulate::simulate;
