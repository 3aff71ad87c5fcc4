// The frames that a flash sends to its chip.
ghost use Rattle.std.specs.Prelude.{◌≡◌, ◌/◌, ◌%◌, ◌≤◌, true, false, [], ◌∷◌, length};
ghost use Rattle.ft25h08.specs.Accepted.{starts};
ghost use Rattle.ft25h08.specs.Chip.{with_enable, with_activity, conditions_of};
ghost use Rattle.ft25h08.specs.Queries.{busy_in};
ghost use Rattle.ft25h08.specs.State.{chip_of};
ghost use Rattle.ft25h08.specs.declared.activity.Activity.TheVariants.{Idle};
ghost use Rattle.ft25h08_commands.specs.Rules.{touches_protected};
ghost use Rattle.ft25h08_flash.specs.ChipFlash.{page_at, sector_at};

use crate::address::Address;
use arrayvec::ArrayVec;
use ft25h08::Ft25h08;

// Wakes a chip that is not in the middle of a change.
pub(crate) fn wake(chip: &mut Ft25h08)
    requires { busy_in (chip_of chip.old) ≡ false }
    ensures { chip_of chip.new ≡ with_activity Idle (chip_of chip.old) }
{
    let _ = chip.frame(&[0xAB], 0, &mut [0; 1]);
}

// Sets the write enable latch of an idle chip.
pub(crate) fn enable(chip: &mut Ft25h08)
    requires { (chip_of chip.old).activity ≡ Idle }
    ensures { chip_of chip.new ≡ with_enable true (chip_of chip.old) }
{
    let _ = chip.frame(&[0x06], 0, &mut [0; 1]);
}

// A code and an address, of which the high byte comes first.
fn header(code: u8, address: Address) -> [u8; 4]
    ensures { result ≡ code ∷ address.at / 65536 ∷ address.at / 256 % 256 ∷ address.at % 256 ∷ [] }
{
    let [_, high, middle, low] = (address.at as u32).to_be_bytes();
    [code, high, middle, low]
}

// The frame of a page program.
fn program_frame(address: Address, new: &[u8]) -> ArrayVec<u8, 260>
    requires { length new.now ≤ 256 }
    ensures { result.items ≡ 2 ∷ address.at / 65536 ∷ address.at / 256 % 256 ∷ address.at % 256 ∷ new.now }
{
    let mut frame = ArrayVec::new();
    frame.try_extend_from_slice(&header(0x02, address)).unwrap();
    frame.try_extend_from_slice(new).unwrap();
    frame
}

// Starts a page program.
pub(crate) fn start_program(chip: &mut Ft25h08, address: Address, new: &[u8])
    requires idle { (chip_of chip.old).activity ≡ Idle }
    requires enabled { (chip_of chip.old).enabled ≡ true }
    requires some { 1 ≤ length new.now }
    requires few { length new.now ≤ 256 }
    requires free { touches_protected (conditions_of (chip_of chip.old)) (length (chip_of chip.old).array) 2 address.at ≡ false }
    ensures { chip_of chip.new ≡ starts (page_at address.at new.now (chip_of chip.old)) (chip_of chip.old).ticks.program (chip_of chip.old) }
{
    let _ = chip.frame(&program_frame(address, new), 0, &mut [0; 260]);
}

// Starts a sector erase.
pub(crate) fn start_erase(chip: &mut Ft25h08, address: Address)
    requires idle { (chip_of chip.old).activity ≡ Idle }
    requires enabled { (chip_of chip.old).enabled ≡ true }
    requires free { touches_protected (conditions_of (chip_of chip.old)) (length (chip_of chip.old).array) 32 address.at ≡ false }
    ensures { chip_of chip.new ≡ starts (sector_at address.at (chip_of chip.old)) (chip_of chip.old).ticks.erase_sector (chip_of chip.old) }
{
    let _ = chip.frame(&header(0x20, address), 0, &mut [0; 4]);
}
