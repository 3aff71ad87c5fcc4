// Questions, which change nothing.
ghost use Rattle.std.specs.Prelude.{◌≡◌, length};
ghost use Rattle.ft25h08.specs.Queries.{status_of, busy_in, byte_at};
ghost use Rattle.ft25h08.specs.State.{chip_of};

use crate::chip::Ft25h08;
use ft25h08_commands::Mode;

impl Ft25h08 {
    /// The status register, S15 to S0.
    pub fn status(&self) -> u16
        ensures { result ≡ status_of (chip_of self.now) }
    {
        self.settings.word(self.write_enabled, self.is_busy())
    }

    /// Whether a change is under way: WIP.
    pub fn is_busy(&self) -> bool
        ensures { result ≡ busy_in (chip_of self.now) }
    {
        matches!(self.activity.mode(), Mode::Busy)
    }

    /// How many bytes the array has.
    pub fn capacity(&self) -> usize
        ensures { result ≡ length (chip_of self.now).array }
    {
        self.array.len()
    }

    /// The array byte at an address, where there is one.
    pub fn array_byte(&self, at: usize) -> Option<u8>
        ensures { result ≡ byte_at (chip_of self.now).array at }
    {
        self.array.get(at).copied()
    }

    /// The security byte at a security address, where there is one.
    #[tactic(auto, using(crate::proofs::Registering::security_byte_lem))]
    pub fn security_byte(&self, at: usize) -> Option<u8>
        ensures { result ≡ byte_at (chip_of self.now).security at }
    {
        self.security.byte(at)
    }
}
