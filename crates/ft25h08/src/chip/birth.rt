// Birth: a question that answers the refusal, and the making.
ghost use Rattle.std.specs.Prelude.{◌≡◌, Ok, vec_len};
ghost use Rattle.ft25h08.specs.Birth.{birth_answer, newborn};
ghost use Rattle.ft25h08.specs.State.{chip_of};

use crate::activity::Activity;
use crate::chip::Ft25h08;
use crate::refusals::BirthRefusal;
use crate::security::Security;
use crate::ticks::Ticks;
use ft25h08_commands::{Settings, is_capacity};

impl Ft25h08 {
    /// Whether a chip can be born over an array of `len` bytes with these tick counts.
    pub fn birth_refusal(len: usize, ticks: Ticks) -> Result<(), BirthRefusal>
        ensures { result ≡ birth_answer len ticks }
    {
        if !is_capacity(len) {
            return Err(BirthRefusal::Length);
        }
        if !ticks.all_count() {
            return Err(BirthRefusal::Ticks);
        }
        Ok(())
    }

    /// A newborn chip over an array, whose contents it keeps. Ask `birth_refusal` first.
    pub fn new(array: Vec<u8>, ticks: Ticks) -> Ft25h08
        requires { birth_answer (vec_len array) ticks ≡ Ok tt }
        ensures { chip_of result ≡ newborn array.items ticks }
    {
        Ft25h08 {
            array,
            security: Security::new(),
            settings: Settings::new(),
            write_enabled: false,
            wp_high: true,
            activity: Activity::Idle,
            ticks,
        }
    }
}
