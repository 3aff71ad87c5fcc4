// Rows and numbers as they are typed.
ghost use Rattle.std.specs.Prelude.{◌≡◌, ℕ, List, IfOk, Some};
ghost use Rattle.numerals.specs.Fractions.{fixed_of};
ghost use Rattle.numerals.specs.Wholes.{whole_of};
ghost use Rattle.rows.specs.Reflectors.{is_reflector};
ghost use Rattle.rows.specs.Temperatures.{is_temperature};
ghost use Rattle.calibrate.specs.Typed.{in_limits, temperature_from, numbers_in, name_from, reflector_from, parts_in};

use crate::complaint::Complaint;
use numerals::{read_hundredths, read_tenths, read_whole};
use rows::{Reflector, Temperature};
use std::alloc::Global;

/// A row that is typed as two texts.
pub trait Typed: Sized {
    /// The texts name just this row.
    ghost Names: { List ℕ → List ℕ → Self → Type 0 };

    /// The row that the texts name.
    fn typed(heap: Global, first: &str, second: &str) -> Result<Self, Complaint>
        ensures { IfOk result (λ row. Names first.now second.now row) };
}

// The temperature row of two numbers, if there is one.
fn temperature_of(tenths: i32, offset: i32) -> Option<Temperature>
    ensures { numbers_in result ≡ in_limits is_temperature (tenths, offset) }
{
    Temperature::new(i16::try_from(tenths).ok()?, i16::try_from(offset).ok()?).ok()
}

// The temperature row that two texts name, if there is one.
fn temperature_from(celsius: &str, millimetres: &str) -> Option<Temperature>
    ensures { numbers_in result ≡ temperature_from (fixed_of 1 celsius.now) (fixed_of 2 millimetres.now) }
{
    let tenths = read_tenths(celsius.as_bytes())?;
    let offset = read_hundredths(millimetres.as_bytes())?;
    temperature_of(tenths, offset)
}

// A name of 1 to 8 bytes, with spaces behind it up to 8.
fn name_from(text: &str) -> Option<[u8; 8]>
    ensures { result ≡ name_from text.now }
{
    let bytes = text.as_bytes();
    if bytes.is_empty() || bytes.len() > 8 {
        return None;
    }
    let mut name = [b' '; 8];
    name[0..bytes.len()].copy_from_slice(bytes);
    Some(name)
}

// The reflector row of a name and a number, if there is one.
fn reflector_of(name: [u8; 8], offset: i32) -> Option<Reflector>
    ensures { parts_in result ≡ in_limits is_reflector (name, offset) }
{
    Reflector::new(name, i16::try_from(offset).ok()?).ok()
}

// The reflector row that two texts name, if there is one.
fn reflector_from(name: &str, millimetres: &str) -> Option<Reflector>
    ensures { parts_in result ≡ reflector_from (name_from name.now) (fixed_of 2 millimetres.now) }
{
    let name = name_from(name)?;
    let offset = read_hundredths(millimetres.as_bytes())?;
    reflector_of(name, offset)
}

// What a typed text has to be, and is not.
fn is_no(heap: Global, text: &str, what: &str) -> Complaint {
    Complaint::said(heap, format_args!("{text:?} is no {what}"))
}

const OFFSET: &str = "offset: millimetres from -99.99 to 99.99, in steps of 0.01";

const DEGREES: &str = "temperature: degrees Celsius from -40.0 to 85.0, in steps of 0.1";

const NAME: &str = "name: 1 to 8 characters from space to ~";

/// The number of a slot.
pub(crate) fn typed_slot(heap: Global, text: &str) -> Result<usize, Complaint>
    ensures { IfOk result (λ slot. whole_of text.now ≡ Some slot) }
{
    let slot = read_whole(text.as_bytes());
    slot.ok_or_else(|| is_no(heap, text, "slot: decimal digits"))
}

impl Typed for Temperature {
    ghost Names = { λ celsius millimetres row. numbers_in (Some row) ≡ temperature_from (fixed_of 1 celsius) (fixed_of 2 millimetres) };

    fn typed(heap: Global, celsius: &str, millimetres: &str) -> Result<Temperature, Complaint> {
        temperature_from(celsius, millimetres).ok_or_else(|| {
            if temperature_from(celsius, "0").is_none() {
                is_no(heap, celsius, DEGREES)
            } else {
                is_no(heap, millimetres, OFFSET)
            }
        })
    }
}

impl Typed for Reflector {
    ghost Names = { λ name millimetres row. parts_in (Some row) ≡ reflector_from (name_from name) (fixed_of 2 millimetres) };

    fn typed(heap: Global, name: &str, millimetres: &str) -> Result<Reflector, Complaint> {
        reflector_from(name, millimetres).ok_or_else(|| {
            if reflector_from(name, "0").is_none() {
                is_no(heap, name, NAME)
            } else {
                is_no(heap, millimetres, OFFSET)
            }
        })
    }
}
