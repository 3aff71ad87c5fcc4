// Hexadecimal digits.
ghost use Rattle.std.specs.Prelude.{◌≡◌, ℕ, ◌*◌, ◌<◌, length};
ghost use Rattle.bench.specs.Texts.{hex_digit, hex_of};

fn hex_digit(n: u8) -> u8
    requires { n < 16 }
    ensures { result ≡ hex_digit n }
{
    if n < 10 { b'0' + n } else { b'a' - 10 + n }
}

/// Writes each byte as a pair of lowercase digits.
pub(crate) fn write_hex(text: &mut [u8], bytes: &[u8])
    requires { length text.old ≡ 2 * length bytes.now }
    ensures { text.new ≡ hex_of bytes.now }
{
    for (i, byte) in bytes.iter().enumerate() {
        text[2 * i] = hex_digit(*byte / 16);
        text[2 * i + 1] = hex_digit(*byte % 16);
    }
}
