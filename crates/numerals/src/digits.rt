// Rows of digits.
ghost use Rattle.std.specs.Prelude.{◌≡◌, ℕ, ◌+◌, ◌*◌, ◌≤◌, Some};
ghost use Rattle.numerals.specs.Digits.{fitting, numeral_of, radix_of, with_digits};

/// The base that digits are read in.
#[derive(Clone, Copy)]
pub(crate) enum Base {
    Decimal,
    Hexadecimal,
}

impl Base {
    fn radix(self) -> u32
        ensures value { result ≡ radix_of self }
        ensures low { 2 ≤ result }
        ensures high { result ≤ 36 }
    {
        match self {
            Base::Decimal => 10,
            Base::Hexadecimal => 16,
        }
    }
}

// The number with one more digit after it.
fn append_digit(number: usize, radix: u32, digit: u32) -> Option<usize>
    ensures { result ≡ fitting 64 (Some (number * radix + digit)) }
{
    number
        .checked_mul(radix as usize)?
        .checked_add(digit as usize)
}

// The number with a row of digits after it; none if a byte is no digit of the base.
pub(crate) fn append_digits(number: usize, base: Base, digits: &[u8]) -> Option<usize>
    ensures { result ≡ with_digits (radix_of base) number digits.now }
{
    let radix = base.radix();
    let mut sum = number;
    for byte in digits {
        let digit = char::from(*byte).to_digit(radix)?;
        sum = append_digit(sum, radix, digit)?;
    }
    Some(sum)
}

// One digit or more of a base, and nothing else.
pub(crate) fn read_numeral(base: Base, text: &[u8]) -> Option<usize>
    ensures { result ≡ fitting 64 (numeral_of (radix_of base) text.now) }
{
    match text {
        [] => None,
        _ => append_digits(0, base, text),
    }
}
