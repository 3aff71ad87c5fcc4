//! Puts bytes into any flash, with the fewest erases.
#![tactic(auto)]

mod compare;
mod locked;
mod pages;
mod piece;
mod refusal;
mod sector;
mod steps;
mod work;
mod write;

pub use refusal::PutRefusal;
pub use work::WorkBuffer;
pub use write::put;
