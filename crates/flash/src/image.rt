// An image of a flash in memory.
ghost use Rattle.std.specs.Prelude.{◌≡◌, ◌*◌, ◌<◌, ◌≤◌, vec_len};

use crate::tallies::Tallies;

mod calls;

/// What an image has under way.
#[derive(Clone, Copy)]
pub enum Pending {
    /// the first `count` of these bytes are to be ANDed in at an address
    Program {
        at: usize,
        count: usize,
        new: [u8; 256],
    },
    /// the sector from this address on is to become FF
    Erase {
        first: usize,
    },
}

/// An image of a flash in memory, with a yes/no mark for each sector. A program or an erase takes one tick.
#[derive(Drop)]
pub struct Image {
    bytes: Vec<u8>,
    marks: Vec<bool>,
    pending: Option<Pending>,
    tallies: Tallies,
    ghost whole: { vec_len bytes ≡ 4096 * vec_len marks },
    ghost some: { 0 < vec_len marks },
    ghost most: { vec_len marks ≤ 256 },
}
