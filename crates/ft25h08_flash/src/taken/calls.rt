// What a taken chip does.
ghost use Rattle.std.specs.Prelude.{◌≡◌, ◌/◌, ◌<◌, ◌≤◌, true, false, length, Ok, ◌==◌, slice_index_or};
ghost use Rattle.std.proofs.Common.{rules};
ghost use Rattle.flash.specs.Answers.{in_page, fresh};
ghost use Rattle.flash.specs.Meaning.{program_started, erase_started};
ghost use Rattle.ft25h08.specs.Chip.{with_activity};
ghost use Rattle.ft25h08.specs.State.{chip_of};
ghost use Rattle.ft25h08.specs.Tick.{tick_after};
ghost use Rattle.ft25h08.specs.declared.activity.Activity.TheVariants.{Idle};
ghost use Rattle.ft25h08_flash.specs.ChipFlash.{chip_meaning, sector_mark, take_answer};
ghost use Rattle.ft25h08_flash.specs.Taken.{flash_meaning, taken_most, taken_whole};
ghost use Rattle.ft25h08.proofs.Counting.{each_count};
ghost use Rattle.ft25h08_flash.specs.Taking;

use crate::address::Address;
use crate::frames::{enable, start_erase, start_program, wake};
use crate::taken::Ft25h08Flash;
use flash::{
    FlashRefusal, InProgress, NorFlash, ReadNorFlash, Tallies, fits_page, read_from, start_refusal,
};
use ft25h08::Ft25h08;
use ft25h08_commands::any_protected;

impl Ft25h08Flash {
    /// Whether a chip can be taken: not while a change is under way.
    pub fn refusal(chip: &Ft25h08) -> Result<(), FlashRefusal>
        ensures { result ≡ take_answer (chip_of chip.now) }
    {
        if chip.is_busy() {
            return Err(FlashRefusal::Busy);
        }
        Ok(())
    }

    /// Takes a chip, and wakes it. Ask `refusal` first.
    pub fn take(chip: Ft25h08) -> Ft25h08Flash
        requires { take_answer (chip_of chip) ≡ Ok tt }
        ensures { flash_meaning result ≡ chip_meaning (with_activity Idle (chip_of chip)) 0 0 }
    {
        let mut chip = chip;
        wake(&mut chip);
        Ft25h08Flash {
            chip,
            tallies: Tallies::new(),
        }
    }

    /// Gives the chip back.
    pub fn release(self) -> Ft25h08
        ensures { chip_of result ≡ chip_of self.chip }
    {
        let Ft25h08Flash { chip, .. } = self;
        chip
    }

    // How many sectors there are.
    fn sectors(&self) -> usize
        ensures count { result ≡ length (flash_meaning self.now).marks }
        ensures most { result ≤ 256 }
    {
        self.chip.capacity() / 4096
    }

    // Whether the settings protect a byte of a sector.
    fn is_marked(&self, sector: usize) -> bool
        requires { sector < 256 }
        ensures { result ≡ sector_mark (chip_of self.now.chip).settings sector }
    {
        any_protected(self.chip.settings(), sector as u32 * 4096, 4096)
    }

    // The mark of a sector; past the last there is none.
    fn mark_of(&self, sector: usize) -> bool
        ensures { result ≡ slice_index_or (flash_meaning self.now).marks sector false }
    {
        sector < self.sectors() && self.is_marked(sector)
    }

    // Sends the frames of a program that nothing is in the way of.
    fn send_program(&mut self, at: usize, new: &[u8]) -> InProgress
        requires place { in_page at (length new.now) (length (flash_meaning self.old).bytes) ≡ true }
        requires ready { ((flash_meaning self.old).left == 0) ≡ true }
        requires free { slice_index_or (flash_meaning self.old).marks (at / 4096) false ≡ false }
        ensures mark { result ≡ fresh }
        ensures after { flash_meaning self.new ≡ program_started at new.now (flash_meaning self.old) }
    {
        // Each cell holds a byte, which a list of numbers does not tell.
        let cells = self.chip.array();
        let _ = cells.len();
        enable(&mut self.chip);
        start_program(&mut self.chip, Address { at }, new);
        self.tallies.count_program();
        InProgress::started()
    }

    // Sends the frames of an erase that nothing is in the way of.
    fn send_erase(&mut self, sector: usize) -> InProgress
        requires place { sector < length (flash_meaning self.old).marks }
        requires ready { ((flash_meaning self.old).left == 0) ≡ true }
        requires free { slice_index_or (flash_meaning self.old).marks sector false ≡ false }
        ensures mark { result ≡ fresh }
        ensures after { flash_meaning self.new ≡ erase_started sector (flash_meaning self.old) }
    {
        enable(&mut self.chip);
        start_erase(&mut self.chip, Address { at: sector * 4096 });
        self.tallies.count_erase();
        InProgress::started()
    }

    // The chip ticks once, and the tallies stay.
    fn tick_chip(&mut self)
        ensures { flash_meaning self.new ≡ chip_meaning (tick_after (chip_of self.old.chip)) self.old.tallies.programs self.old.tallies.erases }
    {
        self.chip.tick();
    }
}

impl ReadNorFlash for Ft25h08Flash {
    ghost bytes = { λ f. (flash_meaning f).bytes };

    ghost ready = { λ f. ((flash_meaning f).left == 0) };

    ghost most = { taken_most };

    fn capacity(&self) -> usize {
        self.chip.capacity()
    }

    fn is_ready(&self) -> bool {
        !self.chip.is_busy()
    }

    fn read(&self, at: usize, out: &mut [u8]) -> Result<(), FlashRefusal> {
        read_from(self.chip.array(), self.is_ready(), at, out)
    }
}

impl NorFlash for Ft25h08Flash {
    ghost meaning = { flash_meaning };

    ghost sound = { λ f.
        let counts = each_count f.chip.ticks f.chip.counts in
        Taking.sound (chip_of f.chip) f.tallies.programs f.tallies.erases (taken_whole f) counts.program counts.sector f.short_program f.short_erase f.taken f.tallies.few_programs f.tallies.few_erases };

    ghost same = { Prim.search rules };

    ghost rests = { Prim.search rules };

    fn program(&mut self, at: usize, new: &[u8]) -> Result<InProgress, FlashRefusal> {
        if !fits_page(at, new.len(), self.chip.capacity()) {
            return Err(FlashRefusal::Range);
        }
        let ready = self.is_ready();
        start_refusal(ready, ready && self.mark_of(at / 4096))?;
        Ok(self.send_program(at, new))
    }

    fn erase_sector(&mut self, sector: usize) -> Result<InProgress, FlashRefusal> {
        if sector >= self.sectors() {
            return Err(FlashRefusal::Range);
        }
        let ready = self.is_ready();
        start_refusal(ready, ready && self.mark_of(sector))?;
        Ok(self.send_erase(sector))
    }

    fn tick(&mut self) {
        self.tick_chip();
    }

    fn is_protected(&self, sector: usize) -> Result<bool, FlashRefusal> {
        if sector >= self.sectors() {
            return Err(FlashRefusal::Range);
        }
        Ok(self.mark_of(sector))
    }

    fn program_ticks(&self) -> u16 {
        self.chip.ticks().program
    }

    fn erase_ticks(&self) -> u16 {
        self.chip.ticks().erase_sector
    }
}
