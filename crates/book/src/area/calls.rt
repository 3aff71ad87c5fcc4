// Making a book, putting rows into it, and getting them.
ghost use Rattle.std.specs.Prelude.{◌≡◌, ℕ, ◌+◌, ◌*◌, ◌<◌, ◌≤◌, Bool, true, false, List, length, take, drop, replicate, Err};
ghost use Rattle.book.specs.declared.refusal.GetRefusal.TheVariants.{Busy};
ghost use Rattle.writer.specs.Operations.{FewestErases};
ghost use Rattle.writer.specs.Put.{put_answer, after_put};
ghost use Rattle.book.specs.Area.{book_answer};
ghost use Rattle.book.specs.Books.{area_of};
ghost use Rattle.book.specs.Gets.{Gets, SlotReads};
ghost use Rattle.book.specs.Puts.{put_row_answer};
ghost use Rattle.book.specs.Slots.{slots_in, slot_at, place_of};

use crate::area::Book;
use crate::refusal::GetRefusal;
use flash::{FlashRefusal, NorFlash, ReadNorFlash};
use rows::Row;
use writer::{PutRefusal, WorkBuffer, put};

// How many bytes a row of a kind has.
fn row_len<R: Row>() -> usize
    ensures { result ≡ 1 + R.Row.body }
{
    1 + R::body() as usize
}

// What the bytes of a slot read as.
fn read_slot<R: Row>(slot: &[u8]) -> Result<Option<R>, GetRefusal>
    requires long { length slot.now ≡ 1 + R.Row.body }
    requires usable { R.Row.body < 255 }
    ensures { SlotReads R.Row.kind R.Row.bytes slot.now result }
{
    if slot[0] == 0xff {
        return Ok(None);
    }
    Ok(Some(R::read(slot)?))
}

// Gets what stands at an address. The buffer is as long as a row of any kind may be: the kind is known by its type only.
fn get_at<R: Row, F: ReadNorFlash>(flash: &F, at: usize) -> Result<Option<R>, GetRefusal>
    requires usable { R.Row.body < 255 }
    requires within { at + (1 + R.Row.body) ≤ length (F.ReadNorFlash.bytes flash.now) }
    ensures busy { F.ReadNorFlash.ready flash.now ≡ false → result ≡ Err Busy }
    ensures reads { F.ReadNorFlash.ready flash.now ≡ true → SlotReads R.Row.kind R.Row.bytes (take (1 + R.Row.body) (drop at (F.ReadNorFlash.bytes flash.now))) result }
{
    let mut bytes = [0; 255];
    let slot = &mut bytes[..row_len::<R>()];
    flash.read(at, slot).map_err(|_| GetRefusal::Busy)?;
    read_slot(slot)
}

// Puts a row at an address.
fn put_at<R: Row, F: NorFlash>(
    flash: &mut F,
    at: usize,
    row: &R,
    work: &mut [u8],
) -> Result<(u32, u32, u32), PutRefusal>
    requires { R.Row.body < 255 }
    ensures answer { result ≡ put_answer at (R.Row.bytes row.now) (length work.old) (F.NorFlash.meaning flash.old) }
    ensures after { F.NorFlash.meaning flash.new ≡ after_put result at (R.Row.bytes row.now) (F.NorFlash.meaning flash.old) }
    ensures fewest { FewestErases result (F.NorFlash.meaning flash.old).bytes (F.NorFlash.meaning flash.new).bytes }
{
    let mut bytes = [0; 255];
    let slot = &mut bytes[..row_len::<R>()];
    row.write(slot).unwrap();
    put(flash, at, slot, work)
}

impl Book {
    /// A book over `len` bytes from `start` on.
    pub fn new<F: ReadNorFlash>(flash: &F, start: usize, len: usize) -> Result<Book, FlashRefusal>
        ensures { area_of result ≡ book_answer start len (length (F.ReadNorFlash.bytes flash.now)) (F.ReadNorFlash.ready flash.now) }
    {
        let capacity = flash.capacity();
        if len < 1
            || start % 4096 != 0
            || len % 4096 != 0
            || start > capacity
            || len > capacity - start
        {
            return Err(FlashRefusal::Range);
        }
        if !flash.is_ready() {
            return Err(FlashRefusal::Busy);
        }
        Ok(Book { start, len })
    }

    /// How many slots it has for rows of a kind.
    pub fn slots<R: Row>(&self) -> usize
        ensures { result ≡ slots_in R.Row.body self.now.len }
    {
        let body = R::body();
        if body == 255 {
            return 0;
        }
        self.len / (1 + body as usize)
    }

    // Where a slot starts, if there is such a slot.
    fn place<R: Row>(&self, slot: usize) -> Option<usize>
        ensures { result ≡ place_of self.now.start self.now.len R.Row.body slot }
    {
        if slot >= self.slots::<R>() {
            return None;
        }
        let n = row_len::<R>();
        Some(self.start + slot * n)
    }

    /// Puts a row into a slot: its bytes at the start of the slot, and every other byte as it was. The work buffer, 4,096
    /// bytes, is filled with FF in any case. Answers how many programs and erases it took, and how many ticks.
    pub fn put_row<R: Row, F: NorFlash>(
        &self,
        flash: &mut F,
        slot: usize,
        row: &R,
        work: &mut [u8],
    ) -> Result<(u32, u32, u32), PutRefusal>
        ensures answer { result ≡ put_row_answer self.now.start self.now.len R.Row.body slot (R.Row.bytes row.now) (length work.old) (F.NorFlash.meaning flash.old) }
        ensures after { F.NorFlash.meaning flash.new ≡ after_put result (slot_at self.now.start R.Row.body slot) (R.Row.bytes row.now) (F.NorFlash.meaning flash.old) }
        ensures blank { work.new ≡ replicate (length work.old) 255 }
        ensures fewest { FewestErases result (F.NorFlash.meaning flash.old).bytes (F.NorFlash.meaning flash.new).bytes }
    {
        let guard = WorkBuffer { bytes: work };
        let at = self.place::<R>(slot).ok_or(PutRefusal::Range)?;
        put_at(flash, at, row, guard.bytes)
    }

    /// The row in a slot, or nothing if the slot is empty.
    #[tactic(auto, using(crate::proofs::Fitting::place_ends))]
    pub fn get<R: Row, F: ReadNorFlash>(
        &self,
        flash: &F,
        slot: usize,
    ) -> Result<Option<R>, GetRefusal>
        ensures { Gets R.Row.kind R.Row.body R.Row.bytes self.now.start self.now.len slot (F.ReadNorFlash.bytes flash.now) (F.ReadNorFlash.ready flash.now) result }
    {
        let at = self.place::<R>(slot).ok_or(GetRefusal::Range)?;
        if self.start + self.len > flash.capacity() {
            return Err(GetRefusal::Range);
        }
        get_at(flash, at)
    }
}
