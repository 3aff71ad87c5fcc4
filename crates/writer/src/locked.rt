// The first sector that has to change and is protected.
ghost use Rattle.std.specs.Prelude.{◌≡◌, ◌/◌, length};
ghost use Rattle.cells.specs.Tests.{first_in};
ghost use Rattle.writer.specs.Needed.{placed};
ghost use Rattle.writer.specs.Pieces.{Fits};
ghost use Rattle.writer.specs.Put.{is_locked};

use crate::compare::any_differs;
use crate::piece::{Piece, Pieces};
use crate::steps::{is_marked, read_old};
use flash::NorFlash;

// Whether bytes that lie in one sector would change it though it is protected. A sector that is not protected is not read.
fn is_locked<F: NorFlash>(flash: &F, piece: Piece<'_, 4096>, work: &mut [u8; 4096]) -> bool
    requires { Fits piece.at (length piece.bytes.now) (F.NorFlash.meaning flash.now) }
    ensures { result ≡ is_locked (F.NorFlash.meaning flash.now) (placed piece.entry.at piece.entry.bytes.now (F.NorFlash.meaning flash.now).bytes) (piece.entry.at / 4096) }
{
    if !is_marked(flash, piece.sector()) {
        return false;
    }
    let old = read_old(flash, piece, work);
    any_differs(old, piece.bytes)
}

// The first sector that has to change and is protected.
pub(crate) fn first_locked<F: NorFlash>(
    flash: &F,
    at: usize,
    bytes: &[u8],
    work: &mut [u8; 4096],
) -> Option<usize>
    requires { Fits at (length bytes.now) (F.NorFlash.meaning flash.now) }
    ensures { result ≡ first_in (is_locked (F.NorFlash.meaning flash.now) (placed at bytes.now (F.NorFlash.meaning flash.now).bytes)) 0 (length (F.NorFlash.meaning flash.now).marks) }
{
    for piece in Pieces::of(at, bytes) {
        if is_locked(flash, piece, work) {
            return Some(piece.sector());
        }
    }
    None
}
