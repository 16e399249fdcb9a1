//! What schedules are run on.

/// The calls of one client: a file of 2048 bytes is made, synced and read.
const ONE: &str = "\
call 0 0 0 100 open /f rwc 644
call 0 0 0 100 fill 0 2048 61
call 0 0 0 100 sync
call 0 0 0 100 seek 0 set 0
call 0 0 0 100 read 0 2048
";

/// The calls of two clients, each with its own file, which wait for one another.
const TWO: &str = "\
call 0 0 0 100 open /f rwc 644
call 1 0 0 100 open /g rwc 644
call 0 0 0 100 fill 0 2048 61
call 1 0 0 100 fill 0 2048 62
call 0 0 0 100 sync
call 1 0 0 100 sync
call 0 0 0 100 seek 0 set 0
call 1 0 0 100 seek 0 set 0
call 0 0 0 100 read 0 2048
call 1 0 0 100 read 0 2048
";

/// The volume, the drivers, the clients, and how replies come.
#[derive(Clone, Copy)]
pub struct Setting {
    /// The bytes of a block.
    pub block: usize,
    /// The drivers move an arm over the sectors.
    pub arms: bool,
    /// There are two clients.
    pub two: bool,
    /// Each reply is delivered twice, and each request is repeated.
    pub twice: bool,
}

/// A volume of blocks of 1024, drivers that move sectors in rising order, one client, and no reply or request twice.
pub const PLAIN: Setting = Setting {
    block: 1024,
    arms: false,
    two: false,
    twice: false,
};

/// How many settings there are.
pub const SETTINGS: u32 = 24;

impl Setting {
    /// The setting of this number; past the last one they come again. The first twelve have one client.
    pub fn of(number: u32) -> Setting {
        let block = match number % 3 {
            0 => 1024,
            1 => 2048,
            _ => 4096,
        };
        Setting {
            block,
            arms: number / 3 % 2 == 1,
            twice: number / 6 % 2 == 1,
            two: number / 12 % 2 == 1,
        }
    }

    /// How many sectors a block has.
    pub fn sectors(&self) -> usize {
        self.block / 512
    }

    /// Of each block that the calls have moved, the number of the reply to its request: four blocks are read, each by a request of its own;
    /// the sync writes neighbours by one request, of 4096 bytes at most. Numbers behind the last request's have no effect.
    pub fn replies(&self) -> &'static [u32] {
        match (self.block, self.two) {
            (1024, false) => &[0, 1, 2, 3, 4, 4, 4, 5, 5, 5, 6],
            (1024, true) => &[0, 1, 2, 3, 4, 4, 4, 5, 5, 5, 5],
            (2048, false) => &[0, 1, 2, 3, 4, 4, 5, 5, 6, 7, 8],
            (2048, true) => &[0, 1, 2, 3, 4, 4, 5, 5, 6, 6, 7],
            _other => &[0, 1, 2, 3, 4, 5, 6, 7, 8, 9, 10],
        }
    }

    /// The clients: their sessions are numbered below.
    pub fn clients(&self) -> u8 {
        if self.two { 2 } else { 1 }
    }

    /// Their calls, as lines of a schedule.
    pub fn calls(&self) -> &'static str {
        if self.two { TWO } else { ONE }
    }
}
