// Puts bytes that lie in one sector.
ghost use Rattle.std.specs.Prelude.{◌≡◌, ◌/◌, true, false, length, slice_index_or};
ghost use Rattle.writer.specs.Needed.{placed, must_erase};
ghost use Rattle.writer.specs.Pieces.{Fits, composed};
ghost use Rattle.writer.specs.Put.{Made, is_locked};

use crate::compare::any_rises;
use crate::pages::program_pages;
use crate::piece::Piece;
use crate::steps::{erase, is_marked, read_into, read_old};
use flash::NorFlash;

// Makes the work buffer what the sector is to hold: the bytes at their place, and around them what stands.
fn compose<F: NorFlash>(flash: &F, piece: Piece<'_, 4096>, work: &mut [u8; 4096])
    requires { Fits piece.at (length piece.bytes.now) (F.NorFlash.meaning flash.now) }
    ensures { work.new ≡ composed piece.entry.at piece.entry.bytes.now (F.NorFlash.meaning flash.now).bytes }
{
    let start = piece.at % 4096;
    let (front, rest) = work.split_at_mut(start);
    let (middle, behind) = rest.split_at_mut(piece.bytes.len());
    read_into(flash, piece.at - start, front);
    middle.copy_from_slice(piece.bytes);
    read_into(flash, piece.at + piece.bytes.len(), behind);
}

// Erases the sector and programs what it is to hold. Answers the programs, the erases and the ticks.
fn rewrite<F: NorFlash>(
    flash: &mut F,
    piece: Piece<'_, 4096>,
    work: &mut [u8; 4096],
) -> (u32, u32, u32)
    requires fits { Fits piece.at (length piece.bytes.now) (F.NorFlash.meaning flash.old) }
    requires free { slice_index_or (F.NorFlash.meaning flash.old).marks (piece.at / 4096) false ≡ false }
    requires rises { must_erase (F.NorFlash.meaning flash.old).bytes (placed piece.at piece.bytes.now (F.NorFlash.meaning flash.old).bytes) (piece.at / 4096) ≡ true }
    ensures { Made (placed piece.entry.at piece.entry.bytes.now (F.NorFlash.meaning flash.old).bytes) (F.NorFlash.meaning flash.old) (F.NorFlash.meaning flash.new) result }
{
    let sector = piece.sector();
    compose(flash, piece, work);
    let (erases, spent) = erase(flash, sector);
    let (programs, ticks) = program_pages(flash, Piece::whole(sector, work), None);
    (programs, erases, spent + ticks)
}

// Puts bytes that lie in one sector, unless that is protected: then they stand there already. Each byte of the sector is
// read at most once, and the bytes around the put only if it has to be erased. Answers the programs, the erases and
// the ticks.
pub(crate) fn put_in_sector<F: NorFlash>(
    flash: &mut F,
    piece: Piece<'_, 4096>,
    work: &mut [u8; 4096],
) -> (u32, u32, u32)
    requires fits { Fits piece.at (length piece.bytes.now) (F.NorFlash.meaning flash.old) }
    requires free { is_locked (F.NorFlash.meaning flash.old) (placed piece.at piece.bytes.now (F.NorFlash.meaning flash.old).bytes) (piece.at / 4096) ≡ false }
    ensures { Made (placed piece.entry.at piece.entry.bytes.now (F.NorFlash.meaning flash.old).bytes) (F.NorFlash.meaning flash.old) (F.NorFlash.meaning flash.new) result }
{
    if is_marked(flash, piece.sector()) {
        return (0, 0, 0);
    }
    let old = read_old(flash, piece, work);
    if !any_rises(old, piece.bytes) {
        let (programs, ticks) = program_pages(flash, piece, Some(old));
        return (programs, 0, ticks);
    }
    rewrite(flash, piece, work)
}
