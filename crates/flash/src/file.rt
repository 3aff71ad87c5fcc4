// A file image.
ghost use Rattle.std.specs.Prelude.{◌≤◌, length};

mod calls;

/// An image of a flash in lent bytes, as they were read from a file: readable only, and always ready.
#[derive(Drop)]
pub struct FileImage<'a> {
    bytes: &'a [u8],
    ghost small: { length bytes.now ≤ 1048576 },
}
