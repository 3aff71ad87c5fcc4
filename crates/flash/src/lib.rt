//! One flash interface: a flash that can be read, a flash that can be written, and the mark of a change under way.
//! Behind it stand an image in memory and a file image.
#![tactic(auto)]

mod checks;
mod complete;
mod file;
mod image;
mod in_progress;
mod page;
mod refusal;
mod tallies;
mod traits;

pub use checks::{read_from, start_refusal};
pub use complete::{erase_and_wait, program_and_wait};
pub use file::FileImage;
pub use image::Image;
pub use in_progress::InProgress;
pub use page::fits_page;
pub use refusal::FlashRefusal;
pub use tallies::Tallies;
pub use traits::{NorFlash, ReadNorFlash, wait};
