// What a chip is doing.
ghost use Rattle.std.specs.Prelude.{◌≡◌};
ghost use Rattle.ft25h08.specs.Activities.{mode_of};

use ft25h08_commands::{Mode, Settings};

/// A change under way, which lands on its last tick.
#[derive(Drop)]
pub enum Change {
    /// the latch is ANDed into the 256 array bytes from `page` on
    Program { page: usize, latch: [u8; 256] },
    /// `len` array bytes from `first` on become FF
    Erase { first: usize, len: usize },
    /// the latch is ANDed into a security register
    ProgramSecurity { register: usize, latch: [u8; 256] },
    /// all security bytes become FF
    EraseSecurity,
    /// the status register takes these settings
    WriteStatus { new: Settings },
}

/// A chip is idle, asleep in deep power-down, or in the middle of one change with so many ticks left.
#[derive(Drop)]
pub enum Activity {
    Idle,
    Asleep,
    Changing { change: Change, left: u16 },
}

impl Activity {
    /// What a frame meets.
    pub(crate) fn mode(&self) -> Mode
        ensures { result ≡ mode_of self.now }
    {
        match self {
            Activity::Idle => Mode::Idle,
            Activity::Asleep => Mode::Asleep,
            Activity::Changing { .. } => Mode::Busy,
        }
    }
}
