//! The FT25H08 taken as a flash. It changes the chip only through frames and ticks, so that whatever holds of every life
//! of the chip holds here too.
#![tactic(auto)]

mod address;
mod frames;
mod taken;

pub use taken::Ft25h08Flash;
