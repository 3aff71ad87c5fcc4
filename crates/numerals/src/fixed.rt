// Numbers with a sign and a point.
ghost use Rattle.std.specs.Prelude.{◌≡◌, ℕ, ◌*◌, ◌^◌, ◌++◌, ◌==◌, false, position, Some};
ghost use Rattle.numerals.specs.Digits.{fitting, with_digits};
ghost use Rattle.numerals.specs.Fractions.{are_zeros, is_exact, units_of, size_of, signed, fixed_of};

use crate::digits::{Base, append_digits};

// Whether every byte is the digit 0.
fn are_zeros(digits: &[u8]) -> bool
    ensures { result ≡ are_zeros digits.now }
{
    digits.iter().all(|digit| *digit == b'0')
}

// Where the first point stands.
fn point_in(text: &[u8]) -> Option<usize>
    ensures { result ≡ position (λ byte. byte == 0x2e) text.now }
{
    text.iter().position(|byte| *byte == b'.')
}

// Two rows of decimal digits, read as one.
#[tactic(auto, using(crate::proofs::Reading::joined_none, crate::proofs::Reading::joined_some))]
fn read_joined(first: &[u8], second: &[u8]) -> Option<usize>
    ensures { result ≡ with_digits 10 0 (first.now ++ second.now) }
{
    append_digits(
        append_digits(0, Base::Decimal, first)?,
        Base::Decimal,
        second,
    )
}

// A number with so many zeros after it, if that is below 2^31.
#[tactic(auto, using(crate::proofs::Scaling::one_more_zero, crate::proofs::Scaling::zeros_grow))]
fn scaled(number: usize, zeros: usize) -> Option<i32>
    ensures { result ≡ signed false (fitting 31 (Some (number * 10 ^ zeros))) }
{
    let mut units = number;
    for _ in 0..zeros {
        units = units.checked_mul(10)?;
    }
    i32::try_from(units).ok()
}

// Whether the whole part has a digit, and there are only zeros past the places.
fn is_exact(whole: &[u8], past: &[u8]) -> bool
    ensures { result ≡ is_exact whole.now past.now }
{
    !whole.is_empty() && are_zeros(past)
}

// A whole part and a fraction, whose digits past the places have to be 0.
#[tactic(auto, using(crate::proofs::Scaling::units_refused, crate::proofs::Scaling::units_lost, crate::proofs::Scaling::units_found))]
fn read_parts(whole: &[u8], fraction: &[u8], places: usize) -> Option<i32>
    ensures { result ≡ signed false (fitting 31 (units_of places whole.now fraction.now)) }
{
    let (kept, past) = fraction.split_at(places.min(fraction.len()));
    if !is_exact(whole, past) {
        return None;
    }
    scaled(read_joined(whole, kept)?, places - kept.len())
}

// A number with no sign.
#[tactic(auto, using(crate::proofs::Points::size_whole, crate::proofs::Points::size_bare, crate::proofs::Points::size_parted, std::proofs::lemmas::List::take_rest))]
fn read_size(text: &[u8], places: usize) -> Option<i32>
    ensures { result ≡ signed false (size_of places text.now) }
{
    let Some(point) = point_in(text) else {
        return read_parts(text, &[], places);
    };
    match &text[point + 1..] {
        [] => None,
        fraction => read_parts(&text[..point], fraction, places),
    }
}

// A number in units of 10^-places.
#[tactic(auto, using(crate::proofs::Marks::fixed_after_minus))]
fn read_fixed(text: &[u8], places: usize) -> Option<i32>
    ensures { result ≡ fixed_of places text.now }
{
    match text {
        [b'-', size @ ..] => Some(-read_size(size, places)?),
        _ => read_size(text, places),
    }
}

/// A number in tenths, exactly: `15` and `15.00` are 150, `-0.5` is -5, `15.05` is none. Its size is below 2^31.
pub fn read_tenths(text: &[u8]) -> Option<i32>
    ensures { result ≡ fixed_of 1 text.now }
{
    read_fixed(text, 1)
}

/// A number in hundredths, exactly: `1.2` is 120, `-0.00` is 0, `.5`, `5.` and `+5` are none. Its size is below 2^31.
pub fn read_hundredths(text: &[u8]) -> Option<i32>
    ensures { result ≡ fixed_of 2 text.now }
{
    read_fixed(text, 2)
}
