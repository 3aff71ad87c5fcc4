// The power fails and comes back.
ghost use Rattle.std.specs.Prelude.{◌≡◌, ℕ, ◌<◌, length};
ghost use Rattle.ft25h08.specs.PowerCut.{cut_answer, cut_after, interrupted};
ghost use Rattle.ft25h08.specs.State.{chip_of};

use crate::activity::{Activity, Change};
use crate::chip::Ft25h08;
use crate::refusals::CutRefusal;

impl Ft25h08 {
    /// A power cut. `junk` is what the cells of an interrupted change are left with: 1 byte up to the array's
    /// length, repeated over all addresses. The chip comes back idle and awake, with WEL and WIP 0.
    pub fn power_cut(&mut self, junk: &[u8]) -> Result<(), CutRefusal>
        ensures answer { result ≡ cut_answer junk.now (chip_of self.old) }
        ensures after { chip_of self.new ≡ cut_after junk.now (chip_of self.old) }
    {
        if junk.is_empty() || junk.len() > self.array.len() {
            return Err(CutRefusal::JunkLength);
        }
        match std::mem::replace(&mut self.activity, Activity::Idle) {
            Activity::Idle | Activity::Asleep => self.write_enabled = false,
            Activity::Changing { change, .. } => self.interrupt(change, junk),
        }
        Ok(())
    }

    // The change ends half done.
    #[tactic(auto, using(std::proofs::lemmas::List::with_items_is, cells::proofs::Ranges::changed_from_zero))]
    fn interrupt(&mut self, change: Change, junk: &[u8])
        requires { 0 < length junk.now }
        ensures { chip_of self.new ≡ interrupted junk.now change (chip_of self.old) }
    {
        self.write_enabled = false;
        self.activity = Activity::Idle;
        match change {
            Change::Program { page, latch } => cells::cut_program(
                self.array.as_mut_slice(),
                0,
                page,
                &latch,
                junk,
            ),
            Change::Erase { first, len } => cells::cut_erase(
                self.array.as_mut_slice(),
                0,
                first,
                len,
                junk,
            ),
            Change::ProgramSecurity { register, latch } => self
                .security
                .cut_program(register, &latch, junk),
            Change::EraseSecurity => self.security.cut_erase(junk),
            Change::WriteStatus { new } => {
                if junk[0] % 2 == 1 {
                    self.settings = new;
                }
            }
        }
    }
}
