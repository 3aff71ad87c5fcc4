// Addresses as frames carry them.
ghost use Rattle.std.specs.Prelude.{◌<◌};

/// An address of three bytes.
#[derive(Clone, Copy)]
pub(crate) struct Address {
    pub(crate) at: usize,
    ghost low: { at < 16777216 },
}
