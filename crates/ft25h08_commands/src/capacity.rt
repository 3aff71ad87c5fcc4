// The length of the array.
ghost use Rattle.std.specs.Prelude.{◌≡◌, ℕ, ◌<◌, ◌≤◌, true};
ghost use Rattle.ft25h08_commands.specs.Sizes.{is_capacity};

/// How many bytes an array has: 65,536 × 1, 2, 4, 8 or 16.
#[derive(Clone, Copy)]
pub struct Capacity {
    bytes: u32,
    ghost whole: { is_capacity bytes ≡ true },
}

/// Whether an array may have this length.
pub fn is_capacity(len: usize) -> bool
    ensures { result ≡ is_capacity len }
{
    matches!(len, 65_536 | 131_072 | 262_144 | 524_288 | 1_048_576)
}

impl Capacity {
    /// The capacity of an array of `len` bytes, where `is_capacity` said yes.
    pub fn new(len: usize) -> Capacity
        requires { is_capacity len ≡ true }
        ensures { result.bytes ≡ len }
    {
        Capacity { bytes: len as u32 }
    }

    /// The number of bytes.
    pub fn bytes(self) -> u32
        ensures value { result ≡ self.bytes }
        ensures some { 0 < result }
        ensures bound { result ≤ 1048576 }
    {
        self.bytes
    }
}
