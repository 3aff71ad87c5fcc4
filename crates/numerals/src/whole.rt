// Whole numbers and addresses.
ghost use Rattle.std.specs.Prelude.{◌≡◌};
ghost use Rattle.numerals.specs.Wholes.{whole_of, address_of};

use crate::digits::{Base, read_numeral};

/// A decimal number: one digit or more, and nothing else; below 2^64.
pub fn read_whole(text: &[u8]) -> Option<usize>
    ensures { result ≡ whole_of text.now }
{
    read_numeral(Base::Decimal, text)
}

/// A hexadecimal number after `0x`, with digits of either case, or a decimal number; below 2^64.
#[tactic(auto, using(crate::proofs::Marks::address_marked))]
pub fn read_address(text: &[u8]) -> Option<usize>
    ensures { result ≡ address_of text.now }
{
    match text {
        [b'0', b'x', digits @ ..] => read_numeral(Base::Hexadecimal, digits),
        _ => read_whole(text),
    }
}
