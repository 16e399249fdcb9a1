//! The media and the drivers of a run.

ghost use Rattle.std.specs.Prelude.{◌≡◌, ◌≢◌, ◌↔◌, ◌⊎◌, ◌<◌, ◌≤◌, ◌+◌, IfSome, IfNone, IfOk, OnOk, OnErr, Err, length, true, false, vec_len, vec_capacity};
ghost use Rattle.simulated_link.specs.Disks.{torn_media};

use crate::moves::{send, step_unit};
use crate::unit::{LINE, Unit};
use bdev::Step;
use media::Media;
use message::BlockRequest;
use message::endpoint::{DISK_DRIVER, Endpoint};
use reissue::link::LinkRefusal;
use schedule::Sent;
use std::alloc::{AllocError, Global};
use std::collections::VecDeque;
use synchronous_driver::local::LocalDriver;

/// A line with fewer requests than this takes one that is repeated.
const FEW: usize = 16;

/// The media, the driver started last, those started before it, and the replies sent.
#[derive(Drop)]
pub struct Drivers<D> {
    pub media: Media,
    pub generation: u32,
    pub current: Unit<D>,
    /// The first one first: they had the generations from 1 on.
    pub older: Vec<Unit<D>>,
    pub sent: Vec<Sent>,
    // The line of the next driver, whose memory is taken before its start.
    pub next_line: VecDeque<BlockRequest>,
    pub ghost current_is: { media.generation ≡ generation },
    pub ghost numbered: { vec_len older + 1 ≡ generation },
}

impl<D: LocalDriver> Drivers<D> {
    ghost use Rattle.simulated_link.specs.Disks.{Steps, Dies, Hangs, LinesUpAgain, is_at, lined_up, started, opened_disks};
    ghost use Rattle.simulated_link.specs.DisksView.{disks_of, HasRoom, IsAsBefore};

    /// The first driver, on media that had none: it runs, as generation 1. An error: no memory was found.
    pub fn first(alloc: Global, media: Media, driver: D) -> Result<Drivers<D>, AllocError>
        requires { media.generation ≡ 0 }
        ensures disks { IfOk result (λ d. disks_of D.state d ≡ opened_disks media (D.state driver)) }
        ensures generation { IfOk result (λ d. d.media.generation ≡ 1) }
    {
        let line = VecDeque::with_capacity(alloc, LINE)?;
        let mut media = media;
        media.adopt(1);
        Ok(Drivers {
            media,
            generation: 1,
            current: Unit {
                driver,
                live: true,
                hung: false,
                line,
            },
            older: Vec::new(alloc),
            sent: Vec::new(alloc),
            next_line: VecDeque::new(alloc),
        })
    }

    /// Where the driver of this generation stands among those started before the last one; none where it wasn't started.
    fn place_of(&self, generation: u32) -> Option<usize>
        requires { generation ≢ self.now.generation }
        ensures none { IfNone result ((generation ≡ 0) ⊎ (self.now.media.generation < generation)) }
        ensures number { IfSome result (λ at. generation ≡ at + 1) }
        ensures before { IfSome result (λ at. generation < self.now.media.generation) }
        ensures there { IfSome result (λ at. at < vec_len self.now.older) }
    {
        if generation == 0 || self.generation < generation {
            return None;
        }
        Some((generation - 1) as usize)
    }

    /// A step of the driver of this generation, at the event with this number; none, where none lives.
    pub fn step(&mut self, place: u32, generation: u32) -> Option<Step>
        requires { vec_len self.old.sent < vec_capacity self.old.sent }
        ensures { Steps place generation (disks_of D.state self.old) result (disks_of D.state self.new) }
    {
        if generation == self.generation {
            self.step_current(place)
        } else {
            self.step_older(place, generation)
        }
    }

    /// A step of the current driver, if it lives.
    fn step_current(&mut self, place: u32) -> Option<Step>
        requires { vec_len self.old.sent < vec_capacity self.old.sent }
        ensures { Steps place self.old.generation (disks_of D.state self.old) result (disks_of D.state self.new) }
    {
        if !self.current.live {
            return None;
        }
        let step = step_unit(&mut self.current, &mut self.media, self.generation);
        send(&mut self.sent, self.generation, place, &step);
        Some(step)
    }

    /// A step of a driver started before the last one, if it lives.
    fn step_older(&mut self, place: u32, generation: u32) -> Option<Step>
        requires room { vec_len self.old.sent < vec_capacity self.old.sent }
        requires other { generation ≢ self.old.generation }
        ensures { Steps place generation (disks_of D.state self.old) result (disks_of D.state self.new) }
    {
        let Some(at) = self.place_of(generation) else {
            return None;
        };
        if !self.older[at].live {
            return None;
        }
        let step = step_unit(&mut self.older[at], &mut self.media, generation);
        send(&mut self.sent, generation, place, &step);
        Some(step)
    }

    /// The driver of this generation dies, if it lives: whether one did. With bytes, the sector that the current one was writing is torn to
    /// them.
    pub fn die(&mut self, generation: u32, bytes: Option<[u8; 512]>) -> bool
        ensures { Dies generation bytes (disks_of D.state self.old) result (disks_of D.state self.new) }
    {
        if generation == self.generation {
            self.current_dies(bytes)
        } else {
            self.older_dies(generation, bytes)
        }
    }

    /// The current driver dies, if it lives.
    fn current_dies(&mut self, bytes: Option<[u8; 512]>) -> bool
        ensures { Dies self.old.generation bytes (disks_of D.state self.old) result (disks_of D.state self.new) }
    {
        if !self.current.live {
            return false;
        }
        let sector = self.current.driver.in_work_here();
        tear(&mut self.media, self.generation, sector, bytes);
        self.current.live = false;
        true
    }

    /// A driver started before the last one dies, if it lives; the media aren't its own any more.
    fn older_dies(&mut self, generation: u32, bytes: Option<[u8; 512]>) -> bool
        requires { generation ≢ self.old.generation }
        ensures { Dies generation bytes (disks_of D.state self.old) result (disks_of D.state self.new) }
    {
        let Some(at) = self.place_of(generation) else {
            return false;
        };
        if !self.older[at].live {
            return false;
        }
        self.older[at].live = false;
        true
    }

    /// The driver of this generation beats no more, if it was started.
    pub fn hang(&mut self, generation: u32)
        ensures { Hangs generation (disks_of D.state self.old) (disks_of D.state self.new) }
    {
        if generation == self.generation {
            self.current.hung = true;
        } else {
            self.older_hangs(generation);
        }
    }

    /// A driver started before the last one beats no more.
    fn older_hangs(&mut self, generation: u32)
        requires { generation ≢ self.old.generation }
        ensures { Hangs generation (disks_of D.state self.old) (disks_of D.state self.new) }
    {
        let Some(at) = self.place_of(generation) else {
            return;
        };
        self.older[at].hung = true;
    }

    /// A request goes again to the line of the driver of this generation, if that lives and its line holds fewer than 16.
    pub fn line_up_again(&mut self, generation: u32, request: &BlockRequest)
        ensures { LinesUpAgain generation request.now (disks_of D.state self.old) (disks_of D.state self.new) }
    {
        if generation == self.generation {
            self.current_lines_up(request);
        } else {
            self.older_lines_up(generation, request);
        }
    }

    /// The same, of the current driver.
    fn current_lines_up(&mut self, request: &BlockRequest)
        ensures { LinesUpAgain self.old.generation request.now (disks_of D.state self.old) (disks_of D.state self.new) }
    {
        if !self.current.live || self.current.line.len() >= FEW {
            return;
        }
        self.current.line.push_back_reserved(*request);
    }

    /// The same, of a driver started before the last one.
    fn older_lines_up(&mut self, generation: u32, request: &BlockRequest)
        requires { generation ≢ self.old.generation }
        ensures { LinesUpAgain generation request.now (disks_of D.state self.old) (disks_of D.state self.new) }
    {
        let Some(at) = self.place_of(generation) else {
            return;
        };
        if !self.older[at].live || self.older[at].line.len() >= FEW {
            return;
        }
        self.older[at].line.push_back_reserved(*request);
    }

    /// Whether the driver at this endpoint is the one that was started last, and lives.
    fn is_at(&self, to: Endpoint) -> bool
        ensures { result ≡ is_at to (disks_of D.state self.now) }
    {
        to.slot == DISK_DRIVER && to.generation == self.generation && self.current.live
    }

    /// Puts a request on the line of the current driver, if it is the one at this endpoint: 1 DeadEndpoint where it isn't, or doesn't
    /// live; 2 Full where the line holds 32.
    pub fn line_up(&mut self, to: Endpoint, request: &BlockRequest) -> Result<(), LinkRefusal>
        ensures dead { (result ≡ Err LinkRefusal.DeadEndpoint) ↔ (is_at to (disks_of D.state self.old) ≡ false) }
        ensures full { (result ≡ Err LinkRefusal.Full)
            ↔ ((is_at to (disks_of D.state self.old) ≡ true) × (32 ≤ length self.old.current.line.items)) }
        ensures lined { OnOk result (disks_of D.state self.new ≡ lined_up request.now (disks_of D.state self.old)) }
        ensures refused { OnErr result (disks_of D.state self.new ≡ disks_of D.state self.old) }
    {
        if !self.is_at(to) {
            return Err(LinkRefusal::DeadEndpoint);
        }
        if self.current.line.len() >= LINE {
            return Err(LinkRefusal::Full);
        }
        self.current.line.push_back_reserved(*request);
        Ok(())
    }

    /// The next driver is started: its generation is adopted, and it runs with nothing on its line.
    #[tactic(auto, using(crate::proofs::DisksLaws::map_push))]
    pub fn start(&mut self, alloc: Global, generation: u32, driver: D)
        requires next { generation ≡ self.old.generation + 1 }
        requires room { HasRoom self.old }
        ensures started { disks_of D.state self.new ≡ started generation (D.state driver) (disks_of D.state self.old) }
        ensures generation { self.new.media.generation ≡ generation }
    {
        self.media.adopt(generation);
        self.generation = generation;
        let line = std::mem::replace(&mut self.next_line, VecDeque::new(alloc));
        let unit = Unit {
            driver,
            live: true,
            hung: false,
            line,
        };
        let before = std::mem::replace(&mut self.current, unit);
        self.older.push_reserved(before);
    }

    /// Makes room for a reply, and for a driver more with its line. An error: no memory was found, and nothing changed but that there may
    /// be more room for a reply or a driver.
    pub fn make_room(&mut self, alloc: Global) -> Result<(), AllocError>
        ensures same { disks_of D.state self.new ≡ disks_of D.state self.old }
        ensures room { OnOk result (HasRoom self.new) }
        ensures media { self.new.media ≡ self.old.media }
        ensures refused { OnErr result (IsAsBefore self.old self.new) }
    {
        self.sent.reserve(1)?;
        self.older.reserve(1)?;
        if self.next_line.capacity() < LINE || !self.next_line.is_empty() {
            self.next_line = VecDeque::with_capacity(alloc, LINE)?;
        }
        Ok(())
    }
}

/// The sector that a driver of this generation names is torn to these bytes, if there are any.
fn tear(media: &mut Media, generation: u32, sector: Option<u32>, bytes: Option<[u8; 512]>)
    ensures torn { media.new ≡ torn_media media.old generation sector bytes }
    ensures generation { media.new.generation ≡ media.old.generation }
{
    if let (Some(sector), Some(bytes)) = (sector, bytes) {
        let _ = media.tear(generation, sector, &bytes);
    }
}
