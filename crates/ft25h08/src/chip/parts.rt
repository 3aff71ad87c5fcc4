// The parts of a chip that what stands above it looks at.
ghost use Rattle.std.specs.Prelude.{◌≡◌};
ghost use Rattle.ft25h08.specs.State.{chip_of};

use crate::chip::Ft25h08;
use crate::ticks::Ticks;
use ft25h08_commands::Settings;

impl Ft25h08 {
    /// All array bytes.
    pub fn array(&self) -> &[u8]
        ensures { result.now ≡ (chip_of self.now).array }
    {
        self.array.as_slice()
    }

    /// The bits of the status register that a status write may change.
    pub fn settings(&self) -> Settings
        ensures { result ≡ (chip_of self.now).settings }
    {
        self.settings
    }

    /// How many ticks each kind of change takes.
    pub fn ticks(&self) -> Ticks
        ensures { result ≡ (chip_of self.now).ticks }
    {
        self.ticks
    }
}
