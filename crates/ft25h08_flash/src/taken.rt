// A chip taken as a flash.
ghost use Rattle.std.specs.Prelude.{◌≡◌, ◌<◌, true};
ghost use Rattle.ft25h08.specs.State.{chip_of};
ghost use Rattle.ft25h08_flash.specs.ChipFlash.{as_flash};

use flash::Tallies;
use ft25h08::Ft25h08;

mod calls;

/// A chip taken as a flash, with the tallies of the programs and erases it has accepted since.
#[derive(Drop)]
pub struct Ft25h08Flash {
    chip: Ft25h08,
    tallies: Tallies,
    ghost taken: { as_flash (chip_of chip).activity ≡ true },
    ghost short_program: { (chip_of chip).ticks.program < 65536 },
    ghost short_erase: { (chip_of chip).ticks.erase_sector < 65536 },
}
