// Rows as they are printed.
use rows::{Reflector, Temperature};
use std::fmt;

/// A row that can be printed.
pub trait Tell {
    fn tell<W: fmt::Write>(&self, f: &mut fmt::Formatter<W>) -> fmt::Result;
}

/// A row, to be printed.
#[derive(Drop)]
pub(crate) struct Told<'a, R>(pub(crate) &'a R);

impl<R: Tell> fmt::Display for Told<'_, R> {
    fn fmt<W: fmt::Write>(&self, f: &mut fmt::Formatter<W>) -> fmt::Result {
        self.0.tell(f)
    }
}

/// Hundredths of a millimetre: always with a sign, and two decimals.
#[derive(Clone, Copy)]
pub(crate) struct Millimetres(pub(crate) i16);

impl fmt::Display for Millimetres {
    fn fmt<W: fmt::Write>(&self, f: &mut fmt::Formatter<W>) -> fmt::Result {
        let sign = if self.0 < 0 { '-' } else { '+' };
        let size = self.0.unsigned_abs();
        write!(f, "{sign}{}.{:02} mm", size / 100, size % 100)
    }
}

// Tenths of a degree Celsius, with one decimal.
#[derive(Clone, Copy)]
struct Degrees(i16);

impl fmt::Display for Degrees {
    fn fmt<W: fmt::Write>(&self, f: &mut fmt::Formatter<W>) -> fmt::Result {
        let sign = if self.0 < 0 { "-" } else { "" };
        let size = self.0.unsigned_abs();
        write!(f, "{sign}{}.{} C", size / 10, size % 10)
    }
}

impl Tell for Temperature {
    fn tell<W: fmt::Write>(&self, f: &mut fmt::Formatter<W>) -> fmt::Result {
        write!(
            f,
            "{} {}",
            Degrees(self.tenths()),
            Millimetres(self.offset())
        )
    }
}

impl Tell for Reflector {
    fn tell<W: fmt::Write>(&self, f: &mut fmt::Formatter<W>) -> fmt::Result {
        write!(f, "\"")?;
        for byte in self.name() {
            write!(f, "{}", char::from(byte))?;
        }
        write!(f, "\" {}", Millimetres(self.offset()))
    }
}
