//! One FT25H08 serial NOR flash chip: frames, ticks, the WP# pin and power cuts.
#![tactic(auto)]

mod activity;
mod chip;
mod refusals;
mod register;
mod security;
mod ticks;

pub use activity::{Activity, Change};
pub use chip::Ft25h08;
pub use ft25h08_commands::FrameRefusal;
pub use refusals::{BirthRefusal, CutRefusal, PinRefusal};
pub use register::Register;
pub use security::Security;
pub use ticks::Ticks;
