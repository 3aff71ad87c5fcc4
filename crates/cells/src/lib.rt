//! What happens to ranges of flash bytes: a page program, an erase, what a power cut leaves of each,
//! the page latch, and the bytes that a chip drives while it is read. No fact of a particular chip is here.
#![tactic(auto)]

mod drive;
mod latch;
mod range;

pub use drive::{drive_nothing, drive_range, drive_repeated};
pub use latch::load_latch;
pub use range::{cut_erase, cut_program, erase, program, program_bytes};
