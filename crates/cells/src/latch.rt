// The page latch: 256 bytes that a program frame fills before the program starts.
ghost use Rattle.std.specs.Prelude.{◌≡◌, ℕ, ◌+◌, ◌%◌, ◌^◌, ◌<◌, length};
ghost use Rattle.cells.specs.Latch.{latched};

// Where data byte i of a program frame goes.
fn offset_of(at: u32, i: usize) -> usize
    requires { i < 2 ^ 63 }
    ensures value { result ≡ (at + i) % 256 }
    ensures bound { result < 256 }
{
    (at as usize + i) % 256
}

/// The latch after the data bytes of a program frame for the address `at`: it starts as FF, data byte i goes to the
/// offset (at + i) mod 256, and a later byte replaces an earlier one.
pub fn load_latch(at: u32, bytes: &[u8]) -> [u8; 256]
    ensures loaded { result ≡ latched at bytes.now }
{
    let mut latch = [0xff; 256];
    for (i, byte) in bytes.iter().enumerate() {
        latch[offset_of(at, i)] = *byte;
    }
    latch
}
