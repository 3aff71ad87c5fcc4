// The offset of a reflector.
ghost use Rattle.std.specs.Prelude.{◌≡◌, true};
ghost use Rattle.rows.specs.Limits.{is_name, is_offset};

mod calls;
mod equal;

/// The offset of a reflector: its name, eight bytes from 20 to 7E, and hundredths of a millimetre, -9,999 to 9,999.
#[derive(Clone, Copy, Debug)]
pub struct Reflector {
    name: [u8; 8],
    offset: i16,
    ghost spelt: { is_name name ≡ true },
    ghost near: { is_offset offset ≡ true },
}
