// The WP# pin.
ghost use Rattle.std.specs.Prelude.{◌≡◌};
ghost use Rattle.ft25h08.specs.Pin.{pin_answer, pin_after};
ghost use Rattle.ft25h08.specs.State.{chip_of};

use crate::chip::Ft25h08;
use crate::refusals::PinRefusal;

impl Ft25h08 {
    /// Puts the WP# pin to low, 0, or high, 1.
    pub fn set_wp_pin(&mut self, level: u8) -> Result<(), PinRefusal>
        ensures answer { result ≡ pin_answer level }
        ensures after { chip_of self.new ≡ pin_after level (chip_of self.old) }
    {
        if level > 1 {
            return Err(PinRefusal::Level);
        }
        self.wp_high = level == 1;
        Ok(())
    }
}
