// The story of a row that changes its sign, on a model of the FT25H08.
use crate::complaint::Complaint;
use crate::told::{Millimetres, Told};
use book::Book;
use ft25h08::{Ft25h08, Ticks};
use ft25h08_flash::Ft25h08Flash;
use rows::{Row, Temperature};
use std::alloc::Global;
use std::fmt;

// The rows that stand at first in slots 0, 1 and 2: tenths of a degree, hundredths of a millimetre.
const FIRST: [(i16, i16); 3] = [(150, 240), (250, 110), (-101, -34)];

// The row that slot 0 is to hold.
const CORRECTED: (i16, i16) = (150, -240);

fn broken<T: Drop>(_cause: T) -> Complaint {
    Complaint::Story
}

// A row within its limits.
fn row_of(numbers: (i16, i16)) -> Result<Temperature, Complaint> {
    Temperature::new(numbers.0, numbers.1).map_err(broken)
}

// The bytes of a row, as they are printed.
#[derive(Clone, Copy)]
struct Hex([u8; 6]);

impl fmt::Display for Hex {
    fn fmt<W: fmt::Write>(&self, f: &mut fmt::Formatter<W>) -> fmt::Result {
        let [a, b, c, d, e, g] = self.0;
        write!(f, "{a:02x} {b:02x} {c:02x} {d:02x} {e:02x} {g:02x}")
    }
}

// The bytes that a row writes.
fn bytes_of(row: &Temperature) -> [u8; 6] {
    let mut bytes = [0; 6];
    let _ = row.write(&mut bytes);
    bytes
}

// What programming new bytes over old ones leaves.
fn programmed_over(old: [u8; 6], new: [u8; 6]) -> [u8; 6] {
    let mut left = old;
    for (byte, over) in left.iter_mut().zip(new) {
        *byte &= over;
    }
    left
}

// A new chip over an array, taken as a flash.
fn flash_over(array: Vec<u8>) -> Result<Ft25h08Flash, Complaint> {
    let ticks = Ticks::bench();
    Ft25h08::birth_refusal(array.len(), ticks).map_err(broken)?;
    let chip = Ft25h08::new(array, ticks);
    Ft25h08Flash::refusal(&chip).map_err(broken)?;
    Ok(Ft25h08Flash::take(chip))
}

// A new FT25H08 of 1 MiB, taken as a flash.
fn new_flash(heap: Global) -> Result<Ft25h08Flash, Complaint> {
    flash_over(vec![in heap; 0xff; 1_048_576]?)
}

fn put(
    book: &Book,
    flash: &mut Ft25h08Flash,
    slot: usize,
    row: &Temperature,
) -> Result<(u32, u32, u32), Complaint> {
    let mut work = [0xff; 4096];
    book.put_row(flash, slot, row, &mut work).map_err(broken)
}

// The row that stands in a slot.
fn row_in(book: &Book, flash: &Ft25h08Flash, slot: usize) -> Result<Temperature, Complaint> {
    let found = book
        .get::<Temperature, Ft25h08Flash>(flash, slot)
        .map_err(broken)?;
    found.ok_or(Complaint::Story)
}

// Prints the first slots as they are read from the flash.
fn print_slots(rt: &HostRuntime, book: &Book, flash: &Ft25h08Flash) -> Result<(), Complaint> {
    for slot in 0..FIRST.len() {
        let row = row_in(book, flash, slot)?;
        println!(rt; "  slot {slot}: {}   {}", Told(&row), Hex(bytes_of(&row)))?;
    }
    Ok(())
}

// Why the new row cannot simply be programmed over the old one.
fn print_reason(rt: &HostRuntime, old: &Temperature, new: &Temperature) -> Result<(), Complaint> {
    let wanted = Hex(bytes_of(new));
    let left = Hex(programmed_over(bytes_of(old), bytes_of(new)));
    let error = Millimetres(old.offset().wrapping_sub(new.offset()));
    println!(rt; "The row in slot 0 has the wrong sign. It should be     {wanted}")?;
    println!(rt; "A program only clears bits. Over the old row it leaves {left}:")?;
    println!(rt; "the sign byte stays, and every face is measured {error} off.")?;
    Ok(())
}

/// Tells how a row changes its sign.
pub(crate) fn tell_story(rt: &HostRuntime) -> Result<(), Complaint> {
    let mut flash = new_flash(rt.alloc())?;
    let book = Book::new(&flash, 0, 4096).map_err(broken)?;
    for (slot, numbers) in FIRST.iter().enumerate() {
        let _ = put(&book, &mut flash, slot, &row_of(*numbers)?)?;
    }
    println!(rt; "An FT25H08 keeps temperature rows in its first sector:")?;
    print_slots(rt, &book, &flash)?;
    let corrected = row_of(CORRECTED)?;
    print_reason(rt, &row_of(FIRST[0])?, &corrected)?;
    let (programs, erases, ticks) = put(&book, &mut flash, 0, &corrected)?;
    println!(rt; "Put erases the sector and programs it anew:")?;
    println!(rt; "  programs {programs} erases {erases} ticks {ticks}")?;
    print_slots(rt, &book, &flash)
}
