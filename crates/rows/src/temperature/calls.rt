// Making, writing and reading a temperature row.
ghost use Rattle.std.specs.Prelude.{◌≡◌};
ghost use Rattle.rows.specs.Fields.{OffsetFrom};
ghost use Rattle.rows.specs.Limits.{is_tenths};
ghost use Rattle.rows.specs.Rows.{held_by, make_answer};
ghost use Rattle.rows.specs.Temperatures.{is_temperature, numbers_of, temperature_bytes};
ghost use Rattle.rows.specs.TemperatureRows.{one_temperature};
ghost use Rattle.std.proofs.Common.{rules};

use crate::bytes::copy_row;
use crate::limits::is_offset;
use crate::refusal::RowRefusal;
use crate::row::Row;
use crate::temperature::Temperature;

fn is_tenths(tenths: i16) -> bool
    ensures { result ≡ is_tenths tenths }
{
    (-400..=850).contains(&tenths)
}

// The offset that has this sign byte and this magnitude. Zero is plus.
fn offset_from(sign: u8, magnitude: u16) -> Result<i16, RowRefusal>
    ensures { OffsetFrom sign magnitude result }
{
    if magnitude > 9999 {
        return Err(RowRefusal::NoRow);
    }
    let offset = magnitude as i16;
    match sign {
        0x00 => Ok(offset),
        0xff if magnitude > 0 => Ok(-offset),
        _ => Err(RowRefusal::NoRow),
    }
}

impl Temperature {
    /// The row of a temperature in tenths of a degree Celsius and an offset in hundredths of a millimetre.
    pub fn new(tenths: i16, offset: i16) -> Result<Temperature, RowRefusal>
        ensures { held_by numbers_of result ≡ make_answer (is_temperature (tenths, offset)) (tenths, offset) }
    {
        if !is_tenths(tenths) || !is_offset(offset) {
            return Err(RowRefusal::NoRow);
        }
        Ok(Temperature { tenths, offset })
    }

    /// The temperature in tenths of a degree Celsius.
    pub fn tenths(&self) -> i16
        ensures { result ≡ self.now.tenths }
    {
        self.tenths
    }

    /// The offset in hundredths of a millimetre.
    pub fn offset(&self) -> i16
        ensures { result ≡ self.now.offset }
    {
        self.offset
    }

    fn encode(&self) -> [u8; 6]
        ensures { result ≡ temperature_bytes self.now }
    {
        let tenths = self.tenths.to_le_bytes();
        let magnitude = self.offset.unsigned_abs().to_le_bytes();
        let sign = if self.offset < 0 { 0xff } else { 0x00 };
        [0x54, tenths[0], tenths[1], sign, magnitude[0], magnitude[1]]
    }
}

impl Row for Temperature {
    ghost kind = { 0x54 };

    ghost body = { 5 };

    ghost bytes = { temperature_bytes };

    ghost nonblank = { Prim.search rules };

    ghost bounded = { Prim.search rules };

    ghost long = { Prim.search rules };

    ghost first = { Prim.search rules };

    ghost one = { λ h. one_temperature };

    fn kind() -> u8 {
        0x54
    }

    fn body() -> u8 {
        5
    }

    fn write(&self, out: &mut [u8]) -> Result<(), RowRefusal> {
        copy_row(&self.encode(), out)
    }

    fn read(from: &[u8]) -> Result<Temperature, RowRefusal> {
        let [kind, t0, t1, sign, m0, m1] = from else {
            return Err(RowRefusal::Length);
        };
        if *kind != 0x54 {
            return Err(RowRefusal::Kind);
        }
        let tenths = i16::from_le_bytes([*t0, *t1]);
        let magnitude = u16::from_le_bytes([*m0, *m1]);
        let offset = offset_from(*sign, magnitude)?;
        Temperature::new(tenths, offset)
    }
}
