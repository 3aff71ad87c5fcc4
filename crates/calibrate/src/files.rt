// Files: read whole, and replaced without ever being lost.
use crate::complaint::Complaint;
use std::fs::File;
use std::io::{Read, Write};
use std::{fs, io};

// Reads a file. Of one that is longer than `most` bytes it reads one byte more than that.
fn read_part(rt: &HostRuntime, path: &str, most: usize) -> io::Result<Vec<u8>> {
    let mut part = File::open(rt, path)?.take((most as u64).saturating_add(1));
    // One place more than can be read, so that the end is found without growing.
    let mut bytes = Vec::with_capacity(rt.alloc(), most.saturating_add(2))?;
    part.read_to_end(&mut bytes)?;
    Ok(bytes)
}

fn cannot_read(rt: &HostRuntime, path: &str, error: io::Error) -> Complaint {
    Complaint::said(rt.alloc(), format_args!("cannot read {path:?}: {error}"))
}

/// Reads a file that is to have at most so many bytes; one that is longer gives one byte more.
pub(crate) fn read_at_most(
    rt: &HostRuntime,
    path: &str,
    most: usize,
) -> Result<Vec<u8>, Complaint> {
    read_part(rt, path, most).map_err(|error| cannot_read(rt, path, error))
}

// Writes the new contents into the file beside, which takes over the old one's permissions, and gives it its name.
fn take_the_place(rt: &HostRuntime, path: &str, beside: &str, bytes: &[u8]) -> io::Result<()> {
    fs::copy(rt, path, beside)?;
    let mut file = File::create(rt, beside)?;
    file.write_all(bytes)?;
    file.sync_all()?;
    fs::rename(rt, beside, path)
}

// The same, beside a file of that name that is made now and is nobody else's.
fn write_beside(rt: &HostRuntime, path: &str, beside: &str, bytes: &[u8]) -> io::Result<()> {
    let _ = File::create_new(rt, beside)?;
    take_the_place(rt, path, beside, bytes).inspect_err(|_| {
        let _ = fs::remove_file(rt, beside);
    })
}

/// Replaces a file's contents. They are written beside it and take its place only once they are complete, so that a
/// failure leaves the old ones.
pub(crate) fn replace(rt: &HostRuntime, path: &str, bytes: &[u8]) -> Result<(), Complaint> {
    let beside = format!(in rt.alloc(); "{path}.new")?;
    write_beside(rt, path, beside.as_str(), bytes).map_err(|error| {
        Complaint::said(
            rt.alloc(),
            format_args!("cannot replace {path:?} by {beside:?}: {error}"),
        )
    })
}

/// A path that can be replaced: a file itself, and no link to one.
pub(crate) fn check_replaceable(rt: &HostRuntime, path: &str) -> Result<(), Complaint> {
    let found = fs::symlink_metadata(rt, path).map_err(|error| cannot_read(rt, path, error))?;
    if !found.is_file() {
        return Err(Complaint::said(rt.alloc(), format_args!("{path:?} is not a regular file")));
    }
    Ok(())
}
