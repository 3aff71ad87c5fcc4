// A chip on the bench: its CS# line, and the frame that is being clocked in.
use arrayvec::ArrayVec;
use ft25h08::Ft25h08;

mod clock;
mod play;

/// A chip, whether CS# is low, and the bytes clocked in since it last went low. The answer buffer is kept to save
/// its memory.
#[derive(Drop)]
pub struct Bench {
    chip: Ft25h08,
    selected: bool,
    frame: ArrayVec<u8, 4096>,
    answer: [u8; 4096],
}
