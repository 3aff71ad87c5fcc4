//! The commands of the FT25H08: the shape of each frame, the protection table, the status register,
//! what a frame asks for, and whether it is accepted.
#![tactic(auto)]

mod admission;
mod capacity;
mod command;
mod conditions;
mod protection;
mod settings;
mod shape;

pub use admission::{FrameRefusal, admit};
pub use capacity::{Capacity, is_capacity};
pub use command::{Command, EraseSize, data_in, decode};
pub use conditions::{Conditions, Mode};
pub use protection::{Span, any_protected, protected_span};
pub use settings::Settings;
