// Bytes that are to stand from an address on, piece by piece.
ghost use Rattle.std.specs.Prelude.{◌+◌, ◌%◌, ◌^◌, ◌<◌, ◌≤◌, length};

mod calls;

/// Bytes that are to stand from an address on, inside one unit of the flash, a sector or a page.
#[derive(Clone, Copy)]
pub(crate) struct Piece<'a, const UNIT: usize> {
    pub(crate) at: usize,
    pub(crate) bytes: &'a [u8],
    ghost some: { 1 ≤ length bytes.now },
    ghost inside: { at % UNIT + length bytes.now ≤ UNIT },
}

/// The pieces of bytes that are to stand from an address on, each as long as its unit allows.
#[derive(Drop)]
pub(crate) struct Pieces<'a, const UNIT: usize> {
    at: usize,
    rest: &'a [u8],
    ghost unit: { 0 < UNIT },
    ghost small: { at + length rest.now < 2 ^ 64 },
}
