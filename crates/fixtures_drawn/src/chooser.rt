//! Who goes on under a drawn gate: one of the threads that stand there, as soon as nobody runs who will come there.
ghost use Rattle.std.specs.Prelude.{◌≡◌};
ghost use Rattle.std.specs.Arc.{arc_value};

use crate::draws::Draws;
use crate::temper::Temper;
use board::{Board, Seat};
use std::sync::Arc;

/// How many sessions there are, which have the first places at the gate.
pub const SESSIONS: usize = 2;

/// The flusher's place.
pub const FLUSHER: usize = 2;

/// The place of the test's own thread, which starts the service and stops it.
pub const MAIN: usize = 3;

/// The reincarnation server's place.
pub const CLOCK: usize = 4;

/// The place of who waits for a driver's message, within a call.
pub const TAKER: usize = 5;

/// The place of the first driver; those of the others follow.
pub const DRIVERS: usize = 6;

/// How many drivers there are.
pub const SUPPLY: usize = 40;

/// How many places there are.
pub const PLACES: usize = DRIVERS + SUPPLY;

/// After how many choices an order that isn't over counts as one without an end: some hundred times as many as it takes.
const MOST: u32 = 100_000;

/// From this generation on a tick passes only where no driver and no session stands: so there are drivers enough.
const LAST_HUNG: u32 = 24;

/// By which the numbers of a digest are mixed, that of FNV-1a.
const PRIME: u64 = 0x100_0000_01b3;

/// What the choices came to.
#[derive(Clone, Copy)]
pub struct Told {
    /// How many there were.
    pub choices: u32,
    /// A digest of who was chosen, of all that went over the link and of the replies, in order.
    pub digest: u64,
    /// How many drivers were started.
    pub drivers: u32,
    /// Whether nobody could be chosen any more, there were too many choices, or somebody didn't come.
    pub is_stuck: bool,
    /// Whether the last sync had something to write, though the flusher had found nothing to write before.
    pub was_left: bool,
}

impl Told {
    // Mixes a number into the digest.
    fn mix(&mut self, number: u64) {
        self.digest = self
            .digest
            .wrapping_mul(PRIME)
            .wrapping_add(number)
            .wrapping_add(1);
    }
}

/// How far a service is. One thread at a time goes on, until all pass.
#[derive(Clone, Copy, PartialEq, Eq)]
enum Stage {
    /// It is started, and the test's own thread has it: the flusher isn't chosen.
    Opening,
    /// The sessions and the flusher have it.
    Drawn,
    /// The sessions have ended: the flusher has it, until it has nothing more to write.
    Settling,
    /// It is stopped: the flusher waits for its bell alone.
    Stopping,
    /// All pass.
    Open,
}

/// How a thread is at its place.
#[derive(Clone, Copy, PartialEq, Eq)]
enum Position {
    /// It isn't known to come, or waits for something else.
    Away,
    /// It will come, or tell that it doesn't.
    Runs,
    /// It stands there.
    Stands,
    /// It is a driver that has ended, whose thread waits until it is joined.
    Ended,
}

/// What is known of a driver.
#[derive(Clone, Copy)]
struct Driver {
    // Requests that were posted to it, and that it has taken.
    posted: u64,
    taken: u64,
    // How often it was chosen, and how often more it may pass.
    chosen: u32,
    more: u32,
    has_ended: bool,
}

/// The board of the service, and a seat there.
#[derive(Drop)]
pub struct Watching {
    board: Arc<Board>,
    seat: Seat,
    ghost seated: { seat.table ≡ arc_value board },
}

impl Watching {
    /// By this seat.
    pub fn new(board: Arc<Board>, seat: Seat) -> Watching
        requires { seat.table ≡ arc_value board }
    {
        Watching { board, seat }
    }

    fn current(&mut self) -> u32 {
        self.board.current(&mut self.seat)
    }
}

/// All that a gate knows of its threads.
#[derive(Drop)]
pub struct Chooser {
    stage: Stage,
    temper: Temper,
    draws: Draws,
    positions: [Position; PLACES],
    drivers: [Driver; SUPPLY],
    // Which session, or the flusher, has the server.
    inside: Option<usize>,
    // Sessions that have ended.
    left: usize,
    // How many posts there were, and how many before the flusher's present turn.
    posts: u64,
    posts_before: u64,
    // The flusher has found nothing to write.
    has_settled: bool,
    // Answers that drivers have sent, and that were received.
    sent: u64,
    received: u64,
    // The greatest generation that was started, and whose start was received.
    started: u32,
    known: u32,
    // The server has complained of a driver since the last tick.
    complained: bool,
    watching: Option<Watching>,
    told: Told,
}

/// What a gate is told. Drivers are named by their generations.
#[derive(Clone, Copy)]
pub enum Note {
    /// A thread comes to its place.
    Comes(usize),
    /// A thread asks whether all that it does any more is to end.
    Rests(usize),
    /// Two sessions and the flusher will come.
    Begin,
    /// A session has ended. Once both have, the service is stopped.
    Leaves(usize),
    /// The service is about to be stopped: the flusher doesn't come any more.
    Close,
    /// The link was let go: all pass from now on.
    Open,
    /// A request with this id was posted to a driver, which will come; or it was refused.
    Posted(u32, u64, bool),
    /// A write is about to be posted.
    Writes,
    /// A driver takes a request, and will come.
    Taken(u32),
    /// A driver is through with its request, and sends an answer or none. It comes if there is another one.
    Through(u32, bool),
    /// A driver has ended.
    Gone(u32),
    /// The server looks for a message between two calls: whether one has come, or is about to.
    Looks,
    /// An answer was received, of which this tells.
    Answer(u64),
    /// It was received that a driver was started.
    Start(u32),
    /// The server complains of a driver.
    Complaint(u32),
    /// A session has a reply, of which this tells.
    Reply(u64),
}

/// The number of the driver of a generation, counted from 0.
fn number_of(generation: u32) -> usize {
    (generation as usize).saturating_sub(1)
}

/// The place of the driver of a generation.
pub fn place_of(generation: u32) -> usize {
    DRIVERS.saturating_add(number_of(generation))
}

impl Chooser {
    /// The test's own thread runs, and the reincarnation server will come.
    pub fn new(temper: Temper, draws: Draws) -> Chooser {
        let driver = Driver {
            posted: 0,
            taken: 0,
            chosen: 0,
            more: 0,
            has_ended: false,
        };
        let mut positions = [Position::Away; PLACES];
        positions[MAIN] = Position::Runs;
        positions[CLOCK] = Position::Runs;
        Chooser {
            stage: Stage::Opening,
            temper,
            draws,
            positions,
            drivers: [driver; SUPPLY],
            inside: None,
            left: 0,
            posts: 0,
            posts_before: 0,
            has_settled: false,
            sent: 0,
            received: 0,
            started: 0,
            known: 0,
            complained: false,
            watching: None,
            told: Told {
                choices: 0,
                digest: 0,
                drivers: 0,
                is_stuck: false,
                was_left: false,
            },
        }
    }

    /// What the choices came to.
    pub fn told(&self) -> Told {
        self.told
    }

    // Whether the flusher, or all, wait for their bells alone.
    fn rests(&self, at: usize) -> bool {
        match self.stage {
            Stage::Stopping => at == FLUSHER,
            Stage::Open => true,
            Stage::Opening | Stage::Drawn | Stage::Settling => false,
        }
    }

    fn position(&self, at: usize) -> Position {
        match self.positions.get(at) {
            Some(position) => *position,
            None => Position::Away,
        }
    }

    fn put(&mut self, at: usize, position: Position) {
        if let Some(place) = self.positions.get_mut(at) {
            *place = position;
        }
    }

    fn stands(&self, at: usize) -> bool {
        self.position(at) == Position::Stands
    }

    /// The service's board is known from now on.
    pub fn watch(&mut self, watching: Watching) {
        self.watching = Some(watching);
    }

    // Looks which generation was started last.
    fn look(&mut self) {
        if let Some(watching) = &mut self.watching {
            self.started = watching.current();
            self.told.drivers = self.started;
        }
    }

    fn begin(&mut self) {
        self.stage = Stage::Drawn;
        self.put(MAIN, Position::Away);
        for at in 0..SESSIONS {
            self.put(at, Position::Runs);
        }
        if !self.stands(FLUSHER) {
            self.put(FLUSHER, Position::Runs);
        }
    }

    // Who had the server has come out.
    fn comes_out(&mut self, at: usize) {
        if self.inside == Some(at) {
            self.inside = None;
        }
    }

    fn leave(&mut self, at: usize) {
        self.put(at, Position::Away);
        self.comes_out(at);
        self.left = self.left.saturating_add(1);
        if self.left < SESSIONS {
            return;
        }
        self.put(MAIN, Position::Runs);
        if self.temper.settles {
            self.stage = Stage::Settling;
        }
    }

    // The flusher comes from a turn. It has settled where that had nothing to do, no driver works and none is awaited.
    fn settle(&mut self) {
        let newest_is_there = match self.drivers.get(number_of(self.started)) {
            Some(driver) => !driver.has_ended && !self.complained,
            None => false,
        };
        let did_nothing = self.posts == self.posts_before && !self.may_take();
        self.has_settled = did_nothing && newest_is_there && !self.somebody_works();
    }

    fn close(&mut self) {
        self.stage = Stage::Stopping;
        self.put(FLUSHER, Position::Away);
        self.put(MAIN, Position::Runs);
        self.inside = None;
    }

    // Whether a driver may pass once more.
    fn passes_more(&mut self, at: usize) -> bool {
        let Some(number) = at.checked_sub(DRIVERS) else {
            return false;
        };
        match self.drivers.get_mut(number) {
            Some(driver) if driver.more > 0 => {
                driver.more = driver.more.saturating_sub(1);
                true
            }
            _ => false,
        }
    }

    // Whether who comes to a place passes it at once.
    fn passes(&mut self, at: usize) -> bool {
        match self.stage {
            Stage::Opening | Stage::Drawn | Stage::Settling => self.passes_more(at),
            Stage::Stopping => at == FLUSHER || self.passes_more(at),
            Stage::Open => true,
        }
    }

    // Somebody comes to a place. Whether he has to stand there.
    fn arrive(&mut self, at: usize) -> bool {
        if at == CLOCK {
            self.look();
        }
        if self.passes(at) {
            return false;
        }
        self.put(at, Position::Stands);
        if at == TAKER {
            let owner = self.inside.unwrap_or(MAIN);
            self.put(owner, Position::Away);
            return true;
        }
        self.comes_out(at);
        if at == FLUSHER && self.stage == Stage::Settling {
            self.settle();
        }
        true
    }

    fn driver(&mut self, generation: u32) -> Option<&mut Driver> {
        self.drivers.get_mut(number_of(generation))
    }

    // Behind a flusher that had nothing to write, a write is one that it left.
    fn writes(&mut self) {
        self.told.was_left = self.told.was_left || self.has_settled;
    }

    fn posted(&mut self, generation: u32, id: u64, was_taken: bool) {
        self.told.mix(id.wrapping_add(u64::from(was_taken) << 32));
        self.posts = self.posts.saturating_add(1);
        if !was_taken {
            return;
        }
        let Some(driver) = self.driver(generation) else {
            return;
        };
        driver.posted = driver.posted.saturating_add(1);
        let comes = driver.posted > driver.taken && !driver.has_ended;
        if comes && self.position(place_of(generation)) == Position::Away {
            self.put(place_of(generation), Position::Runs);
        }
    }

    fn taken(&mut self, generation: u32) {
        if let Some(driver) = self.driver(generation) {
            driver.taken = driver.taken.saturating_add(1);
        }
        self.put(place_of(generation), Position::Runs);
    }

    fn through(&mut self, generation: u32, answers: bool) {
        self.sent = self.sent.saturating_add(u64::from(answers));
        let Some(driver) = self.driver(generation) else {
            return;
        };
        driver.more = 0;
        let position = if driver.posted > driver.taken {
            Position::Runs
        } else {
            Position::Away
        };
        self.put(place_of(generation), position);
    }

    // A driver has ended. Whether its thread waits until it is joined: so until then its line is there, and then it isn't.
    fn gone(&mut self, generation: u32) -> bool {
        let has_worked = match self.driver(generation) {
            Some(driver) => {
                driver.has_ended = true;
                driver.taken > 0
            }
            None => false,
        };
        let waits = has_worked && self.stage != Stage::Open;
        let position = if waits {
            Position::Ended
        } else {
            Position::Away
        };
        self.put(place_of(generation), position);
        waits
    }

    /// Whether there is a driver that has ended, whose thread waits at this place and is joined at a tick, as each is but the first
    /// driver's. It waits no more.
    pub fn frees(&mut self, at: usize) -> bool {
        let waits = at > DRIVERS && self.position(at) == Position::Ended;
        if waits {
            self.put(at, Position::Away);
        }
        waits
    }

    fn received(&mut self, answer: u64) {
        self.told.mix(answer);
        self.received = self.received.saturating_add(1);
    }

    fn start_is_known(&mut self, generation: u32) {
        self.told.mix(u64::from(generation));
        self.known = self.known.max(generation);
    }

    // The reincarnation server does nothing on a complaint of a driver that isn't the newest.
    fn complaint(&mut self, generation: u32) {
        self.told.mix(u64::from(generation));
        self.complained = self.complained || generation == self.started;
    }

    /// Notes what is told. Whether who tells it has to wait at its place, or is to end; of `Looks` whether a message comes.
    pub fn note(&mut self, note: Note) -> bool {
        match note {
            Note::Comes(at) => return self.arrive(at),
            Note::Rests(at) => return self.rests(at),
            Note::Gone(generation) => return self.gone(generation),
            Note::Looks => return self.may_take(),
            Note::Begin => self.begin(),
            Note::Leaves(at) => self.leave(at),
            Note::Close => self.close(),
            Note::Open => self.stage = Stage::Open,
            Note::Posted(generation, id, was_taken) => self.posted(generation, id, was_taken),
            Note::Writes => self.writes(),
            Note::Taken(generation) => self.taken(generation),
            Note::Through(generation, answers) => self.through(generation, answers),
            Note::Answer(answer) => self.received(answer),
            Note::Start(generation) => self.start_is_known(generation),
            Note::Complaint(generation) => self.complaint(generation),
            Note::Reply(reply) => self.told.mix(reply),
        }
        false
    }

    // Whether a driver is stuck: it is the newest, and was chosen often enough.
    fn is_stuck(&self, number: usize) -> bool {
        match (self.temper.stuck.get(number), self.drivers.get(number)) {
            (Some(after), Some(driver)) => {
                *after > 0
                    && driver.chosen >= *after
                    && self.started as usize <= number.saturating_add(1)
            }
            _ => false,
        }
    }

    // Whether the newest driver can answer no ping: it stands, or has ended; or there is none. Its answers have all come then.
    fn is_silent(&self) -> bool {
        let has_ended = match self.drivers.get(number_of(self.started)) {
            Some(driver) => driver.has_ended,
            None => true,
        };
        self.started == 0 || has_ended || self.stands(place_of(self.started))
    }

    // Whether a session or a driver stands.
    fn somebody_works(&self) -> bool {
        (0..SESSIONS).any(|at| self.stands(at)) || (DRIVERS..PLACES).any(|at| self.stands(at))
    }

    // Whether a tick may pass. Then no answer is on its way that could come before or behind the start of a driver.
    fn may_tick(&self) -> bool {
        let may = self.is_silent() || self.complained && !self.may_take();
        may && (self.started < LAST_HUNG || !self.somebody_works())
    }

    // Whether a message has come, or is about to.
    fn may_take(&self) -> bool {
        self.sent > self.received || self.started > self.known
    }

    // Whether the test's own thread may stop the service.
    fn may_stop(&self) -> bool {
        self.has_settled || self.left == SESSIONS && !self.temper.settles
    }

    fn may_flush(&self) -> bool {
        matches!(self.stage, Stage::Drawn | Stage::Settling) && !self.has_settled
    }

    // How likely who stands at a place is chosen, against the others: 0 if he isn't.
    fn weight(&self, at: usize) -> u32 {
        if !self.stands(at) {
            return 0;
        }
        match at {
            0 | 1 if self.inside.is_none() => self.temper.session,
            FLUSHER if self.inside.is_none() && self.may_flush() => self.temper.flusher,
            MAIN if self.may_stop() => self.temper.session,
            0..=MAIN => 0,
            CLOCK if self.may_tick() => self.temper.clock,
            TAKER if self.may_take() => self.temper.session,
            CLOCK | TAKER => 0,
            _ if self.is_stuck(at.saturating_sub(DRIVERS)) => 0,
            _ => self.temper.driver,
        }
    }

    // The place at which a number lies, if the weights of all places are laid one behind the other.
    fn place_at(&self, drawn: u32) -> Option<usize> {
        let mut left = drawn;
        for at in 0..PLACES {
            let weight = self.weight(at);
            if left < weight {
                return Some(at);
            }
            left = left.saturating_sub(weight);
        }
        None
    }

    // A driver goes on, and passes so many times more.
    fn let_driver_go(&mut self, number: usize, more: u32) {
        if let Some(driver) = self.drivers.get_mut(number) {
            driver.more = more;
            driver.chosen = driver.chosen.saturating_add(1);
        }
    }

    // Who stands at a place goes on.
    fn let_go(&mut self, at: usize, more: u32) {
        self.put(at, Position::Runs);
        match at {
            CLOCK => self.complained = false,
            _ if at >= DRIVERS => self.let_driver_go(at.saturating_sub(DRIVERS), more),
            TAKER => {
                self.put(TAKER, Position::Away);
                let owner = self.inside.unwrap_or(MAIN);
                self.put(owner, Position::Runs);
            }
            _ => {
                self.posts_before = self.posts;
                self.inside = Some(at);
            }
        }
    }

    fn runs(&self) -> bool {
        self.positions
            .iter()
            .any(|position| *position == Position::Runs)
    }

    // Chooses one of those who stand.
    fn draw(&mut self) -> Option<usize> {
        let all = (0..PLACES).fold(0u32, |sum, at| sum.saturating_add(self.weight(at)));
        let drawn = self.draws.below(all);
        let more = self.draws.below(4);
        let at = self.place_at(drawn)?;
        self.told.choices = self.told.choices.saturating_add(1);
        self.told.mix(at as u64);
        self.let_go(at, more);
        Some(at)
    }

    /// Somebody who is to come doesn't: the order is stuck.
    pub fn give_up(&mut self) {
        self.told.is_stuck = true;
    }

    /// Who goes on now: somebody, if nobody runs. Where nobody can go on any more, the order is stuck.
    pub fn choose(&mut self) -> Option<usize> {
        if self.stage == Stage::Open || self.told.is_stuck || self.runs() {
            return None;
        }
        let chosen = if self.told.choices < MOST {
            self.draw()
        } else {
            None
        };
        self.told.is_stuck = chosen.is_none();
        chosen
    }
}
