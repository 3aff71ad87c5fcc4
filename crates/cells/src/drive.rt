// The answer buffer: what a chip drives for each of the first `n` bytes of a frame. Bytes from `n` on are untouched.
ghost use Rattle.std.specs.Prelude.{◌≡◌, ℕ, ◌+◌, ◌-◌, ◌<◌, ◌≤◌, min, length};
ghost use Rattle.cells.specs.Bytes.{counted, wrapped};
ghost use Rattle.cells.specs.Driven.{driven, silent, repeated, read_out};

use crate::range::{change_range, erase};

/// Nothing is driven: the line floats high.
pub fn drive_nothing(answer: &mut [u8], n: usize)
    ensures after { answer.new ≡ driven silent n answer.old }
{
    erase(answer, 0, n);
}

/// FF while the code comes in, then one value over and over.
pub fn drive_repeated(answer: &mut [u8], n: usize, value: u8)
    ensures after { answer.new ≡ driven (repeated value) n answer.old }
{
    change_range(answer, 0, n, |i, _| if i == 0 { 0xff } else { value });
}

// How many cells can be copied at once: up to the last cell, and as far as there is room.
fn stretch(cells: usize, start: usize, room: usize) -> usize
    requires { start ≤ cells }
    ensures { result ≡ min (cells - start) room }
{
    (cells - start).min(room)
}

// Fills a buffer with the cells from `start` on, going from the last cell to the first, a stretch at a time.
fn copy_wrapped(part: &mut [u8], cells: &[u8], start: usize)
    requires { start < length cells.now }
    ensures { part.new ≡ counted (λ k. wrapped cells.now (start + k)) (length part.old) }
{
    let mut pos = 0;
    let mut next = start;
    while pos < part.len() {
        let len = stretch(cells.len(), next, part.len() - pos);
        part[pos..pos + len].copy_from_slice(&cells[next..next + len]);
        pos += len;
        next = 0;
    }
}

/// FF for `skip` bytes, then the cells from the address `at` on, going from the last cell to the first.
pub fn drive_range(answer: &mut [u8], n: usize, cells: &[u8], at: u32, skip: usize)
    ensures after { answer.new ≡ driven (read_out cells.now at skip) n answer.old }
{
    drive_nothing(answer, n);
    let end = n.min(answer.len());
    if skip < end && !cells.is_empty() {
        copy_wrapped(&mut answer[skip..end], cells, at as usize % cells.len());
    }
}
