// A correction at a temperature.
ghost use Rattle.std.specs.Prelude.{◌≡◌, true};
ghost use Rattle.rows.specs.Limits.{is_tenths, is_offset};

mod calls;

/// The correction at a temperature: tenths of a degree Celsius, -400 to 850, and hundredths of a millimetre,
/// -9,999 to 9,999.
#[derive(Clone, Copy, PartialEq, Eq, Debug)]
pub struct Temperature {
    tenths: i16,
    offset: i16,
    ghost warm: { is_tenths tenths ≡ true },
    ghost near: { is_offset offset ≡ true },
}
