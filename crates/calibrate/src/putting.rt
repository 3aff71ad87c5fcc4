// Rows into image files.
use crate::complaint::Complaint;
use crate::images::{book_over, open_image, save};
use crate::typed::{Typed, typed_slot};
use rows::Row;

/// Puts the row that two texts name into a slot of an image file, and prints what that cost.
pub(crate) fn put<R: Row + Typed + Drop>(
    rt: &HostRuntime,
    path: &str,
    slot: &str,
    first: &str,
    second: &str,
) -> Result<(), Complaint> {
    let row = R::typed(rt.alloc(), first, second)?;
    let slot = typed_slot(rt.alloc(), slot)?;
    let mut image = open_image(rt, path)?;
    let book = book_over(rt, path, &image)?;
    let mut work = [0xff; 4096];
    let cost = book.put_row(&mut image, slot, &row, &mut work).map_err(|_| {
        Complaint::said(rt.alloc(), format_args!("{path:?} has no slot {slot}"))
    })?;
    save(rt, path, image, cost)
}
