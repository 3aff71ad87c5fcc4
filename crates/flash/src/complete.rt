// A change from its start to its end.
ghost use Rattle.std.specs.Prelude.{◌≡◌, length};
ghost use Rattle.flash.specs.Answers.{program_answer, erase_answer};
ghost use Rattle.flash.specs.Steps.{completed, program_completed, erase_completed};

use crate::refusal::FlashRefusal;
use crate::traits::{NorFlash, wait};

/// Programs, and waits until that has landed. Answers how many ticks it took.
pub fn program_and_wait<F: NorFlash>(
    flash: &mut F,
    at: usize,
    new: &[u8],
) -> Result<u32, FlashRefusal>
    ensures answer { result ≡ completed (program_answer at (length new.now) (F.NorFlash.meaning flash.old)) (F.NorFlash.meaning flash.old).program_ticks }
    ensures after { F.NorFlash.meaning flash.new ≡ program_completed (program_answer at (length new.now) (F.NorFlash.meaning flash.old)) at new.now (F.NorFlash.meaning flash.old) }
{
    let mut change = flash.program(at, new)?;
    let ticks = wait(flash, &mut change);
    Ok(ticks)
}

/// Erases a sector, and waits until that has landed. Answers how many ticks it took.
pub fn erase_and_wait<F: NorFlash>(flash: &mut F, sector: usize) -> Result<u32, FlashRefusal>
    ensures answer { result ≡ completed (erase_answer sector (F.NorFlash.meaning flash.old)) (F.NorFlash.meaning flash.old).erase_ticks }
    ensures after { F.NorFlash.meaning flash.new ≡ erase_completed (erase_answer sector (F.NorFlash.meaning flash.old)) sector (F.NorFlash.meaning flash.old) }
{
    let mut change = flash.erase_sector(sector)?;
    let spent = wait(flash, &mut change);
    Ok(spent)
}
