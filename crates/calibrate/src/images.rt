// Image files.
ghost use Rattle.std.specs.Prelude.{◌≡◌, not, ◌&&◌, ◌==◌};

use crate::complaint::Complaint;
use crate::files::{check_replaceable, read_at_most, replace};
use book::Book;
use flash::{Image, ReadNorFlash};
use std::alloc::Global;

/// An image file has at most so many bytes: 256 sectors of 4,096.
pub(crate) const MOST: usize = 1_048_576;

pub(crate) fn not_an_image(heap: Global, path: &str) -> Complaint {
    Complaint::said(
        heap,
        format_args!("{path:?} is no image: it has not 4096 x 1 to 256 bytes"),
    )
}

/// The book over all of an image.
pub(crate) fn book_over<F: ReadNorFlash>(
    rt: &HostRuntime,
    path: &str,
    image: &F,
) -> Result<Book, Complaint> {
    Book::new(image, 0, image.capacity()).map_err(|_| not_an_image(rt.alloc(), path))
}

/// Reads an image file into an image in memory, no sector of which is protected.
pub(crate) fn open_image(rt: &HostRuntime, path: &str) -> Result<Image, Complaint> {
    check_replaceable(rt, path)?;
    let bytes = read_at_most(rt, path, MOST)?;
    let marks = vec![in rt.alloc(); false; bytes.len() / 4096]?;
    Image::refusal(&bytes, &marks).map_err(|_| not_an_image(rt.alloc(), path))?;
    Ok(Image::new(bytes, marks))
}

// Whether a put of this cost has changed anything.
fn is_change(cost: (u32, u32, u32)) -> bool
    ensures { result ≡ not (cost.0 == 0 && cost.1 == 0) }
{
    let (programs, erases, _) = cost;
    programs > 0 || erases > 0
}

/// Writes an image back to its file, if a put has changed it, and prints what that put cost.
pub(crate) fn save(
    rt: &HostRuntime,
    path: &str,
    image: Image,
    cost: (u32, u32, u32),
) -> Result<(), Complaint> {
    let (programs, erases, ticks) = cost;
    if is_change(cost) {
        replace(rt, path, image.release().as_slice())?;
    }
    println!(rt; "programs {programs} erases {erases} ticks {ticks}")?;
    Ok(())
}
