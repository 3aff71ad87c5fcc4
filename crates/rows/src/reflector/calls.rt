// Making, writing and reading a reflector row.
ghost use Rattle.std.specs.Prelude.{◌≡◌};
ghost use Rattle.rows.specs.Limits.{is_letter, is_name};
ghost use Rattle.rows.specs.Reflectors.{is_reflector, parts_of, reflector_bytes};
ghost use Rattle.rows.specs.Rows.{held_by, make_answer};
ghost use Rattle.std.proofs.Common.{arith, length-append, rules};
ghost use Rattle.rows.specs.Fields.{signed_low_first};
ghost use Rattle.rows.specs.ReflectorRows.{name_long, one_reflector};

use crate::bytes::copy_row;
use crate::limits::is_offset;
use crate::reflector::Reflector;
use crate::refusal::RowRefusal;
use crate::row::Row;

fn is_letter(byte: u8) -> bool
    ensures { result ≡ is_letter byte }
{
    (0x20..=0x7e).contains(&byte)
}

fn is_name(name: [u8; 8]) -> bool
    ensures { result ≡ is_name name }
{
    name.iter().all(|byte| is_letter(*byte))
}

impl Reflector {
    /// The row of a reflector's name and its offset in hundredths of a millimetre.
    pub fn new(name: [u8; 8], offset: i16) -> Result<Reflector, RowRefusal>
        ensures { held_by parts_of result ≡ make_answer (is_reflector (name, offset)) (name, offset) }
    {
        if !is_name(name) || !is_offset(offset) {
            return Err(RowRefusal::NoRow);
        }
        Ok(Reflector { name, offset })
    }

    /// The name.
    pub fn name(&self) -> [u8; 8]
        ensures { result ≡ self.now.name }
    {
        self.name
    }

    /// The offset in hundredths of a millimetre.
    pub fn offset(&self) -> i16
        ensures { result ≡ self.now.offset }
    {
        self.offset
    }

    fn encode(&self) -> [u8; 11]
        ensures { result ≡ reflector_bytes self.now }
    {
        let [a, b, c, d, e, f, g, h] = self.name;
        let [low, high] = self.offset.to_le_bytes();
        [0x52, a, b, c, d, e, f, g, h, low, high]
    }
}

impl Row for Reflector {
    ghost kind = { 0x52 };

    ghost body = { 10 };

    ghost bytes = { reflector_bytes };

    ghost nonblank = { Prim.search rules };

    ghost bounded = { Prim.search rules };

    ghost long = { λ h x. omega (arith, length-append x.name (signed_low_first x.offset), name_long x.name x.spelt) };

    ghost first = { Prim.search rules };

    ghost one = { λ h. one_reflector };

    fn kind() -> u8 {
        0x52
    }

    fn body() -> u8 {
        10
    }

    fn write(&self, out: &mut [u8]) -> Result<(), RowRefusal> {
        copy_row(&self.encode(), out)
    }

    fn read(from: &[u8]) -> Result<Reflector, RowRefusal> {
        let [kind, name @ .., low, high] = from else {
            return Err(RowRefusal::Length);
        };
        let Ok(name) = <[u8; 8]>::try_from(name) else {
            return Err(RowRefusal::Length);
        };
        if *kind != 0x52 {
            return Err(RowRefusal::Kind);
        }
        Reflector::new(name, i16::from_le_bytes([*low, *high]))
    }
}
