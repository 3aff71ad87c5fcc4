// Puts bytes into any flash.
ghost use Rattle.std.specs.Prelude.{◌≡◌, ℕ, ◌+◌, ◌<◌, false, length, replicate, nat_le};
ghost use Rattle.writer.specs.Needed.{placed};
ghost use Rattle.writer.specs.Operations.{FewestErases};
ghost use Rattle.writer.specs.Pieces.{Fits};
ghost use Rattle.writer.specs.Put.{Made, is_locked, put_answer, after_put};

use crate::locked::first_locked;
use crate::piece::Pieces;
use crate::refusal::PutRefusal;
use crate::sector::put_in_sector;
use crate::work::WorkBuffer;
use flash::{NorFlash, ReadNorFlash};

// Puts bytes sector by sector, where no sector that has to change is protected. Answers the programs, the erases and
// the ticks.
fn write_sectors<F: NorFlash>(
    flash: &mut F,
    at: usize,
    bytes: &[u8],
    work: &mut [u8; 4096],
) -> (u32, u32, u32)
    requires fits { Fits at (length bytes.now) (F.NorFlash.meaning flash.old) }
    requires free { (sector : ℕ) → sector < length (F.NorFlash.meaning flash.old).marks → is_locked (F.NorFlash.meaning flash.old) (placed at bytes.now (F.NorFlash.meaning flash.old).bytes) sector ≡ false }
    ensures { Made (placed at bytes.now (F.NorFlash.meaning flash.old).bytes) (F.NorFlash.meaning flash.old) (F.NorFlash.meaning flash.new) result }
{
    let mut programs = 0;
    let mut erases = 0;
    let mut ticks = 0;
    for piece in Pieces::of(at, bytes) {
        let (p, e, t) = put_in_sector(flash, piece, work);
        programs += p;
        erases += e;
        ticks += t;
    }
    (programs, erases, ticks)
}

// Whether so many bytes from an address on lie inside the flash.
fn is_inside(at: usize, len: usize, capacity: usize) -> bool
    ensures { result ≡ nat_le (at + len) capacity }
{
    at <= capacity && len <= capacity - at
}

// Puts bytes at an address by way of the work buffer, unless that is refused.
fn put_through<F: NorFlash>(
    flash: &mut F,
    at: usize,
    bytes: &[u8],
    work: &mut [u8; 4096],
) -> Result<(u32, u32, u32), PutRefusal>
    ensures answer { result ≡ put_answer at bytes.now 4096 (F.NorFlash.meaning flash.old) }
    ensures after { F.NorFlash.meaning flash.new ≡ after_put result at bytes.now (F.NorFlash.meaning flash.old) }
    ensures fewest { FewestErases result (F.NorFlash.meaning flash.old).bytes (F.NorFlash.meaning flash.new).bytes }
{
    if !is_inside(at, bytes.len(), flash.capacity()) {
        return Err(PutRefusal::Range);
    }
    if !flash.is_ready() {
        return Err(PutRefusal::Busy);
    }
    if let Some(sector) = first_locked(flash, at, bytes, work) {
        return Err(PutRefusal::Protected { sector });
    }
    Ok(write_sectors(flash, at, bytes, work))
}

/// Puts bytes at an address: afterwards they stand there, and every other byte is as it was. A sector in which some bit
/// has to go from 0 to 1 is erased and programmed anew, any other is only programmed where a byte has to change, and one
/// in which nothing has to change is left alone. The work buffer, 4,096 bytes, is filled with FF in any case. Answers
/// how many programs and erases it took, and how many ticks.
pub fn put<F: NorFlash>(
    flash: &mut F,
    at: usize,
    bytes: &[u8],
    work: &mut [u8],
) -> Result<(u32, u32, u32), PutRefusal>
    ensures answer { result ≡ put_answer at bytes.now (length work.old) (F.NorFlash.meaning flash.old) }
    ensures after { F.NorFlash.meaning flash.new ≡ after_put result at bytes.now (F.NorFlash.meaning flash.old) }
    ensures blank { work.new ≡ replicate (length work.old) 255 }
    ensures fewest { FewestErases result (F.NorFlash.meaning flash.old).bytes (F.NorFlash.meaning flash.new).bytes }
{
    let guard = WorkBuffer { bytes: work };
    let work = guard.bytes.as_mut_array().ok_or(PutRefusal::Range)?;
    put_through(flash, at, bytes, work)
}
