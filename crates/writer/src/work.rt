// The work buffer of a put.
ghost use Rattle.std.specs.Prelude.{◌≡◌, length, replicate};

/// A work buffer lent to one put. Its end fills it with FF, on every way out and whatever its length.
pub struct WorkBuffer<'a> {
    pub bytes: &'a mut [u8],
}

impl Drop for WorkBuffer<'_> {
    fn drop(self)
        ensures { self.exit.0.now ≡ replicate (length self.entry.bytes.now) 255 }
    {
        let WorkBuffer { bytes } = self;
        bytes.fill(0xff);
    }
}
