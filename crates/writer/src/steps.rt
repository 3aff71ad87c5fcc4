// Single steps on a flash that is ready.
ghost use Rattle.std.specs.Prelude.{◌≡◌, ◌*◌, ◌<◌, false, length, take, drop, Ok, slice_index_or};
ghost use Rattle.cells.specs.Bytes.{changed};
ghost use Rattle.cells.specs.Changes.{erased};
ghost use Rattle.flash.specs.Answers.{program_answer, erase_answer, fresh};
ghost use Rattle.writer.specs.Needed.{Falls, placed};
ghost use Rattle.writer.specs.Pieces.{Fits};
ghost use Rattle.writer.specs.Put.{holding};

use crate::piece::Piece;
use flash::{NorFlash, ReadNorFlash, erase_and_wait, program_and_wait};

// Reads from an address on.
pub(crate) fn read_into<F: NorFlash>(flash: &F, at: usize, out: &mut [u8])
    requires { Fits at (length out.old) (F.NorFlash.meaning flash.now) }
    ensures { out.new ≡ take (length out.old) (drop at (F.NorFlash.meaning flash.now).bytes) }
{
    let _ = flash.read(at, out);
}

// Reads what stands where a piece is to stand, into the front of the work buffer.
pub(crate) fn read_old<'w, F: NorFlash>(
    flash: &F,
    piece: Piece<'_, 4096>,
    work: &'w mut [u8; 4096],
) -> &'w [u8]
    requires { Fits piece.at (length piece.bytes.now) (F.NorFlash.meaning flash.now) }
    ensures { result.now ≡ take (length piece.entry.bytes.now) (drop piece.entry.at (F.NorFlash.meaning flash.now).bytes) }
{
    let old = &mut work[..piece.bytes.len()];
    read_into(flash, piece.at, old);
    old
}

// Whether a sector is protected.
pub(crate) fn is_marked<F: NorFlash>(flash: &F, sector: usize) -> bool
    requires { sector < length (F.NorFlash.meaning flash.now).marks }
    ensures { result ≡ slice_index_or (F.NorFlash.meaning flash.now).marks sector false }
{
    flash.is_protected(sector).unwrap()
}

// Programs bytes into one page, where no bit has to go from 0 to 1, and waits. Answers the programs and the ticks.
pub(crate) fn program<F: NorFlash>(flash: &mut F, at: usize, bytes: &[u8]) -> (u32, u32)
    requires starts { program_answer at (length bytes.now) (F.NorFlash.meaning flash.old) ≡ Ok fresh }
    requires falls { Falls (F.NorFlash.meaning flash.old).bytes (placed at bytes.now (F.NorFlash.meaning flash.old).bytes) }
    ensures cost { result ≡ (1, (F.NorFlash.meaning flash.old).program_ticks) }
    ensures after { F.NorFlash.meaning flash.new ≡ holding (placed at bytes.now (F.NorFlash.meaning flash.old).bytes) 1 0 (F.NorFlash.meaning flash.old) }
{
    (1, program_and_wait(flash, at, bytes).unwrap())
}

// Erases a sector, and waits. Answers the erases and the ticks.
pub(crate) fn erase<F: NorFlash>(flash: &mut F, sector: usize) -> (u32, u32)
    requires { erase_answer sector (F.NorFlash.meaning flash.old) ≡ Ok fresh }
    ensures cost { result ≡ (1, (F.NorFlash.meaning flash.old).erase_ticks) }
    ensures after { F.NorFlash.meaning flash.new ≡ holding (changed (sector * 4096) 4096 erased (F.NorFlash.meaning flash.old).bytes) 0 1 (F.NorFlash.meaning flash.old) }
{
    (1, erase_and_wait(flash, sector).unwrap())
}
