// What happens to one security register.
ghost use Rattle.std.specs.Prelude.{◌≡◌, ℕ, ◌<◌, length, slice_index};
ghost use Rattle.cells.specs.Bytes.{changed};
ghost use Rattle.cells.specs.Changes.{programmed, erased, cut_while_programming, cut_while_erasing, from};

/// One security register of 256 bytes.
#[derive(Drop)]
pub struct Register {
    pub(crate) bytes: [u8; 256],
    ghost whole: { length bytes ≡ 256 },
}

impl Register {
    /// A newborn chip's: all FF.
    pub(crate) fn new() -> Register
        ensures { (k : ℕ) → k < 256 → slice_index result.bytes k ≡ 255 }
    {
        Register { bytes: [0xff; 256] }
    }

    /// ANDs the latch into the bytes.
    pub(crate) fn program(&mut self, latch: &[u8; 256])
        ensures { self.new.bytes ≡ changed 0 256 (programmed latch.now) self.old.bytes }
    {
        cells::program(&mut self.bytes, 0, latch);
    }

    /// Makes every byte FF.
    pub(crate) fn erase(&mut self)
        ensures { self.new.bytes ≡ changed 0 256 erased self.old.bytes }
    {
        cells::erase(&mut self.bytes, 0, 256);
    }

    /// The power fails during the program. `base` is the security address of the first byte.
    pub(crate) fn cut_program(&mut self, base: u32, latch: &[u8; 256], junk: &[u8])
        ensures { self.new.bytes ≡ changed 0 256 (from base (cut_while_programming latch.now junk.now)) self.old.bytes }
    {
        cells::cut_program(&mut self.bytes, base, 0, latch, junk);
    }

    /// The power fails during the erase. `base` is the security address of the first byte.
    pub(crate) fn cut_erase(&mut self, base: u32, junk: &[u8])
        ensures { self.new.bytes ≡ changed 0 256 (from base (cut_while_erasing junk.now)) self.old.bytes }
    {
        cells::cut_erase(&mut self.bytes, base, 0, 256, junk);
    }
}
