// Time: a tick.
ghost use Rattle.std.specs.Prelude.{◌≡◌};
ghost use Rattle.ft25h08.specs.State.{chip_of};
ghost use Rattle.ft25h08.specs.Tick.{tick_after, landed};

use crate::activity::{Activity, Change};
use crate::chip::Ft25h08;

impl Ft25h08 {
    /// One tick: the count left falls by 1, and at 0 the change lands. With no change under way it does nothing.
    pub fn tick(&mut self)
        ensures { chip_of self.new ≡ tick_after (chip_of self.old) }
    {
        match std::mem::replace(&mut self.activity, Activity::Idle) {
            Activity::Idle => {}
            Activity::Asleep => self.activity = Activity::Asleep,
            Activity::Changing { change, left } => {
                if left == 1 {
                    self.land(change);
                } else {
                    self.activity = Activity::Changing {
                        change,
                        left: left - 1,
                    };
                }
            }
        }
    }

    // The change is done: its bytes stand, WEL and WIP fall.
    fn land(&mut self, change: Change)
        ensures { chip_of self.new ≡ landed change (chip_of self.old) }
    {
        self.write_enabled = false;
        self.activity = Activity::Idle;
        match change {
            Change::Program { page, latch } => cells::program(
                self.array.as_mut_slice(),
                page,
                &latch,
            ),
            Change::Erase { first, len } => cells::erase(self.array.as_mut_slice(), first, len),
            Change::ProgramSecurity { register, latch } => self.security.program(register, &latch),
            Change::EraseSecurity => self.security.erase(),
            Change::WriteStatus { new } => self.settings = new,
        }
    }
}
