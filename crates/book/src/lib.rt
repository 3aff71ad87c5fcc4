//! A book: rows of one kind in the slots of an area of a flash.
#![tactic(auto)]

mod area;
mod refusal;

pub use area::Book;
pub use refusal::GetRefusal;
