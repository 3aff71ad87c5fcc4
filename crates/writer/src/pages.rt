// Programs a stretch of one sector, page by page.
ghost use Rattle.std.specs.Prelude.{◌≡◌, ℕ, ◌+◌, ◌/◌, ◌<◌, false, not, length, ◌==◌, slice_index, slice_index_or};
ghost use Rattle.cells.specs.Tests.{any_in};
ghost use Rattle.writer.specs.Before.{byte_before, KnownTo};
ghost use Rattle.writer.specs.Needed.{placed, differs_at, Falls};
ghost use Rattle.writer.specs.Pieces.{Fits};
ghost use Rattle.writer.specs.Put.{Made};

use crate::compare::{any_differs, any_written};
use crate::piece::{Piece, Pieces};
use crate::steps::program;
use flash::NorFlash;

// Whether the part of a stretch that begins at `pos` has to change. `before` is what the stretch holds, and `None` if it
// has just been erased and is FF throughout.
fn part_differs(before: Option<&[u8]>, pos: usize, part: &[u8]) -> bool
    requires { KnownTo (pos + length part.now) before }
    ensures { result ≡ any_in (λ k. not (byte_before before.entry (pos + k) == slice_index part.now k)) 0 (length part.now) }
{
    let n = part.len();
    match before {
        None => any_written(part),
        Some(old) => any_differs(&old[pos..pos + n], part),
    }
}

// Makes a part of one page hold these bytes, where no bit has to go from 0 to 1. Answers the programs and the ticks.
fn put_in_page<F: NorFlash>(flash: &mut F, part: Piece<'_, 256>, differs: bool) -> (u32, u32)
    requires fits { Fits part.at (length part.bytes.now) (F.NorFlash.meaning flash.old) }
    requires free { slice_index_or (F.NorFlash.meaning flash.old).marks (part.at / 4096) false ≡ false }
    requires falls { Falls (F.NorFlash.meaning flash.old).bytes (placed part.at part.bytes.now (F.NorFlash.meaning flash.old).bytes) }
    requires differs { differs ≡ any_in (differs_at (F.NorFlash.meaning flash.old).bytes (placed part.at part.bytes.now (F.NorFlash.meaning flash.old).bytes)) part.at (length part.bytes.now) }
    ensures { Made (placed part.entry.at part.entry.bytes.now (F.NorFlash.meaning flash.old).bytes) (F.NorFlash.meaning flash.old) (F.NorFlash.meaning flash.new) (result.0, 0, result.1) }
{
    if !differs {
        return (0, 0);
    }
    program(flash, part.at, part.bytes)
}

// Makes a piece of one sector hold its bytes, where no bit has to go from 0 to 1: one program for each page of it in
// which some byte has to change. Answers the programs and the ticks.
pub(crate) fn program_pages<F: NorFlash>(
    flash: &mut F,
    piece: Piece<'_, 4096>,
    before: Option<&[u8]>,
) -> (u32, u32)
    requires fits { Fits piece.at (length piece.bytes.now) (F.NorFlash.meaning flash.old) }
    requires free { slice_index_or (F.NorFlash.meaning flash.old).marks (piece.at / 4096) false ≡ false }
    requires falls { Falls (F.NorFlash.meaning flash.old).bytes (placed piece.at piece.bytes.now (F.NorFlash.meaning flash.old).bytes) }
    requires known { KnownTo (length piece.bytes.now) before }
    requires before { (k : ℕ) → k < length piece.bytes.now → byte_before before k ≡ slice_index (F.NorFlash.meaning flash.old).bytes (piece.at + k) }
    ensures { Made (placed piece.entry.at piece.entry.bytes.now (F.NorFlash.meaning flash.old).bytes) (F.NorFlash.meaning flash.old) (F.NorFlash.meaning flash.new) (result.0, 0, result.1) }
{
    let mut programs = 0;
    let mut ticks = 0;
    for part in Pieces::of(piece.at, piece.bytes) {
        let differs = part_differs(before, part.at - piece.at, part.bytes);
        let (more, spent) = put_in_page(flash, part, differs);
        programs += more;
        ticks += spent;
    }
    (programs, ticks)
}
