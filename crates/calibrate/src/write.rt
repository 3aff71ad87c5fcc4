// Raw bytes into an image file.
use crate::complaint::Complaint;
use crate::files::read_at_most;
use crate::images::{MOST, open_image, save};
use numerals::read_address;
use writer::put;

/// Puts a file's bytes at an address of an image file, and prints what that cost.
pub(crate) fn write(
    rt: &HostRuntime,
    path: &str,
    address: &str,
    file: &str,
) -> Result<(), Complaint> {
    let at = read_address(address.as_bytes()).ok_or_else(|| {
        Complaint::said(
            rt.alloc(),
            format_args!("{address:?} is no address: decimal digits, or hexadecimal ones after 0x"),
        )
    })?;
    let mut image = open_image(rt, path)?;
    let bytes = read_at_most(rt, file, MOST)?;
    let mut work = [0xff; 4096];
    let cost = put(&mut image, at, bytes.as_slice(), &mut work).map_err(|refusal| {
        let number = u8::from(refusal);
        Complaint::said(
            rt.alloc(),
            format_args!("refused {number}: {file:?} at {address:?} passes the end of {path:?}"),
        )
    })?;
    save(rt, path, image, cost)
}
