// Rows out of image files.
use crate::complaint::Complaint;
use crate::files::read_at_most;
use crate::images::{MOST, book_over, not_an_image};
use crate::told::{Tell, Told};
use crate::typed::typed_slot;
use book::{Book, GetRefusal};
use flash::FileImage;
use rows::Row;

// The file image of these bytes, and the book over all of it.
fn open_book<'a>(
    rt: &HostRuntime,
    path: &str,
    bytes: &'a [u8],
) -> Result<(FileImage<'a>, Book), Complaint> {
    FileImage::refusal(bytes).map_err(|_| not_an_image(rt.alloc(), path))?;
    let image = FileImage::new(bytes);
    let book = book_over(rt, path, &image)?;
    Ok((image, book))
}

// Prints what a slot answered.
fn print_slot<R: Tell + Drop>(
    rt: &HostRuntime,
    slot: usize,
    answer: Result<Option<R>, GetRefusal>,
) -> Result<(), Complaint> {
    match answer {
        Ok(None) => println!(rt; "slot {slot}: empty")?,
        Ok(Some(row)) => println!(rt; "slot {slot}: {}", Told(&row))?,
        Err(refusal) => println!(rt; "slot {slot}: refused {}", u8::from(refusal))?,
    }
    Ok(())
}

/// Prints each slot of an image file that is not empty.
pub(crate) fn list<R: Row + Tell + Drop>(rt: &HostRuntime, path: &str) -> Result<(), Complaint> {
    let bytes = read_at_most(rt, path, MOST)?;
    let (image, book) = open_book(rt, path, bytes.as_slice())?;
    for slot in 0..book.slots::<R>() {
        let answer = book.get::<R, FileImage<'_>>(&image, slot);
        if !matches!(answer, Ok(None)) {
            print_slot(rt, slot, answer)?;
        }
    }
    Ok(())
}

/// Prints one slot of an image file.
pub(crate) fn get<R: Row + Tell + Drop>(
    rt: &HostRuntime,
    path: &str,
    slot: &str,
) -> Result<(), Complaint> {
    let slot = typed_slot(rt.alloc(), slot)?;
    let bytes = read_at_most(rt, path, MOST)?;
    let (image, book) = open_book(rt, path, bytes.as_slice())?;
    if slot >= book.slots::<R>() {
        return Err(Complaint::said(rt.alloc(), format_args!("{path:?} has no slot {slot}")));
    }
    print_slot(rt, slot, book.get::<R, FileImage<'_>>(&image, slot))
}
