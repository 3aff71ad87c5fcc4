// The chip: its state, and what always holds of it. What it does stands in the modules below.
ghost use Rattle.std.specs.Prelude.{◌≡◌, true, vec_len};
ghost use Rattle.ft25h08_commands.specs.Sizes.{is_capacity};
ghost use Rattle.ft25h08.specs.Counts.{all_count};
ghost use Rattle.ft25h08.specs.Activities.{still_counts};

use crate::activity::Activity;
use crate::security::Security;
use crate::ticks::Ticks;
use ft25h08_commands::Settings;

mod birth;
mod frame;
mod parts;
mod power_cut;
mod queries;
mod tick;
mod wp_pin;

/// An FT25H08 over its array.
#[derive(Drop)]
pub struct Ft25h08 {
    array: Vec<u8>,
    security: Security,
    settings: Settings,
    write_enabled: bool,
    wp_high: bool,
    activity: Activity,
    ticks: Ticks,
    ghost whole: { is_capacity (vec_len array) ≡ true },
    ghost counts: { all_count ticks ≡ true },
    ghost going: { still_counts activity ≡ true },
}
