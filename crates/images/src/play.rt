// Plays a step over any flash.
ghost use Rattle.std.specs.Prelude.{◌≡◌};
ghost use Rattle.images.specs.Outcomes.{marked_of, byte_outcome, outcome_of, after_step};
ghost use Rattle.images.specs.declared.script.Step.TheVariants.{Program, ReadTooSoon};
ghost use Rattle.flash.specs.Answers.{mark_answer};

use crate::outcome::Outcome;
use crate::script::Step;
use flash::{FlashRefusal, NorFlash, ReadNorFlash, erase_and_wait, program_and_wait, wait};

// Reads one byte.
fn read_byte<F: ReadNorFlash>(flash: &F, at: usize) -> Result<Outcome, FlashRefusal>
    ensures { result ≡ byte_outcome at (F.ReadNorFlash.bytes flash.now) (F.ReadNorFlash.ready flash.now) }
{
    let mut byte = [0; 1];
    flash.read(at, &mut byte)?;
    Ok(Outcome::Holds { byte: byte[0] })
}

// Asks for the mark of a sector.
fn ask_mark<F: NorFlash>(flash: &F, sector: usize) -> Result<Outcome, FlashRefusal>
    ensures { result ≡ marked_of (mark_answer sector (F.NorFlash.meaning flash.now)) }
{
    let protected = flash.is_protected(sector)?;
    Ok(Outcome::Marked { protected })
}

/// Plays a step.
pub(crate) fn play<F: NorFlash>(flash: &mut F, step: Step) -> Result<Outcome, FlashRefusal>
    ensures answer { result ≡ outcome_of step (F.NorFlash.meaning flash.old) }
    ensures after { F.NorFlash.meaning flash.new ≡ after_step step (F.NorFlash.meaning flash.old) }
{
    match step {
        Step::Program { at, count, byte } => program_alike(flash, at, count, byte),
        Step::Erase { sector } => {
            let ticks = erase_and_wait(flash, sector)?;
            Ok(Outcome::Took { ticks })
        }
        Step::Read { at } => read_byte(flash, at),
        Step::ReadTooSoon { at, byte } => read_too_soon(flash, at, byte),
        Step::Mark { sector } => ask_mark(flash, sector),
    }
}

// Programs so many bytes, all alike, and waits.
fn program_alike<F: NorFlash>(
    flash: &mut F,
    at: usize,
    count: usize,
    byte: u8,
) -> Result<Outcome, FlashRefusal>
    ensures answer { result ≡ outcome_of (Program at count byte) (F.NorFlash.meaning flash.old) }
    ensures after { F.NorFlash.meaning flash.new ≡ after_step (Program at count byte) (F.NorFlash.meaning flash.old) }
{
    let bytes = [byte; 257];
    let ticks = program_and_wait(flash, at, &bytes[..count.min(257)])?;
    Ok(Outcome::Took { ticks })
}

// Starts a program of one byte, reads it at once, and waits.
fn read_too_soon<F: NorFlash>(flash: &mut F, at: usize, byte: u8) -> Result<Outcome, FlashRefusal>
    ensures answer { result ≡ outcome_of (ReadTooSoon at byte) (F.NorFlash.meaning flash.old) }
    ensures after { F.NorFlash.meaning flash.new ≡ after_step (ReadTooSoon at byte) (F.NorFlash.meaning flash.old) }
{
    let mut change = flash.program(at, &[byte])?;
    let outcome = read_byte(flash, at);
    let _ = wait(flash, &mut change);
    outcome
}
