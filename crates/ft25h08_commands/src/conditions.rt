// What decides, beside the frame itself, whether a frame is accepted.
use crate::settings::Settings;

/// What the chip is doing, as far as a frame is concerned.
#[derive(Clone, Copy)]
pub enum Mode {
    Idle,
    /// in deep power-down
    Asleep,
    /// in the middle of a change
    Busy,
}

/// The state that a frame meets.
#[derive(Clone, Copy)]
pub struct Conditions {
    pub settings: Settings,
    /// the write enable latch, WEL
    pub write_enabled: bool,
    /// the level of the WP# pin
    pub wp_high: bool,
    pub mode: Mode,
}
