// The text that the bench prints, gathered in a buffer.
mod gather;
mod hex;
mod lines;

/// Text that grows at its end.
#[derive(Drop)]
pub struct Text {
    bytes: Vec<u8>,
}
