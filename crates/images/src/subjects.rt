// The two flashes that the script is run over. Each has two blocks of 64 KiB, all FF; the lower block is protected.
ghost use Rattle.std.specs.Prelude.{◌≡◌, ℕ, IfOk, nat_lt};
ghost use Rattle.flash.specs.Images.{image_meaning};
ghost use Rattle.ft25h08.specs.Birth.{newborn};
ghost use Rattle.ft25h08.specs.Counts.{bench_ticks};
ghost use Rattle.ft25h08.specs.State.{chip_of};
ghost use Rattle.ft25h08_commands.specs.Protection.{protected_by};
ghost use Rattle.ft25h08_commands.specs.Status.{written, cleared};
ghost use Rattle.ft25h08_flash.specs.Taken.{flash_meaning};
ghost use Rattle.images.specs.Subjects.{blank, lower_marks, at_first, with_settings, lower_block};

use anyhow::anyhow;
use flash::Image;
use ft25h08::{Ft25h08, Ticks};
use ft25h08_flash::Ft25h08Flash;
use std::alloc::{AllocError, Global};

fn blank_bytes(heap: Global) -> Result<Vec<u8>, AllocError>
    ensures { IfOk result (λ v. v.items ≡ blank 131072) }
{
    vec![in heap; 0xff; 131_072]
}

// The lower 16 sectors of 32 are marked.
fn lower_marks(heap: Global) -> Result<Vec<bool>, AllocError>
    ensures { IfOk result (λ v. v.items ≡ lower_marks) }
{
    let mut marks = vec![in heap; false; 32]?;
    marks.as_mut_slice()[0..16].fill(true);
    Ok(marks)
}

/// The image.
pub(crate) fn new_image(heap: Global) -> anyhow::Result<Image>
    ensures { IfOk result (λ im. image_meaning im ≡ at_first 1 1) }
{
    let bytes = blank_bytes(heap)?;
    let marks = lower_marks(heap)?;
    Image::refusal(&bytes, &marks).map_err(|_| anyhow!("no image can be made of these bytes"))?;
    Ok(Image::new(bytes, marks))
}

fn newborn_chip(heap: Global) -> anyhow::Result<Ft25h08>
    ensures { IfOk result (λ c. chip_of c ≡ newborn (blank 131072) bench_ticks) }
{
    let array = blank_bytes(heap)?;
    let ticks = Ticks::bench();
    Ft25h08::birth_refusal(array.len(), ticks).map_err(|_| anyhow!(
        "no chip can be born over this array"
    ))?;
    Ok(Ft25h08::new(array, ticks))
}

// Writes the status register of a newborn chip, and waits.
fn write_status(chip: &mut Ft25h08, low: u8, high: u8)
    requires { chip_of chip.old ≡ newborn (chip_of chip.old).array bench_ticks }
    ensures { chip_of chip.new ≡ with_settings (written cleared low high) (chip_of chip.old) }
{
    let _ = chip.frame(&[0x06], 0, &mut [0; 1]);
    let _ = chip.frame(&[0x01, low, high], 0, &mut [0; 3]);
    chip.tick();
    chip.tick();
}

// Protects the lower block of a newborn chip: CMP 1 and BP 0001.
fn protect_lower_block(chip: &mut Ft25h08)
    requires { chip_of chip.old ≡ newborn (chip_of chip.old).array bench_ticks }
    ensures after { chip_of chip.new ≡ with_settings lower_block (chip_of chip.old) }
    ensures exactly { (a : ℕ) → protected_by (chip_of chip.new).settings a ≡ nat_lt a 65536 }
{
    write_status(chip, 0x04, 0x40);
}

/// The chip, taken.
pub(crate) fn taken_chip(heap: Global) -> anyhow::Result<Ft25h08Flash>
    ensures { IfOk result (λ f. flash_meaning f ≡ at_first 3 5) }
{
    let mut chip = newborn_chip(heap)?;
    protect_lower_block(&mut chip);
    Ft25h08Flash::refusal(&chip).map_err(|_| anyhow!("the chip is in the middle of a change"))?;
    Ok(Ft25h08Flash::take(chip))
}
