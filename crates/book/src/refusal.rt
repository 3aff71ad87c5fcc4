// Why a get was refused.
ghost use Rattle.std.specs.Prelude.{◌≡◌};
ghost use Rattle.book.specs.Refusals.{number_of, read_refusal};

use rows::RowRefusal;

/// Why a get was refused.
#[derive(Clone, Copy, PartialEq, Eq, Debug)]
pub enum GetRefusal {
    /// there is no such slot, or the book passes the end of the flash
    Range,
    /// a change is under way
    Busy,
    /// the slot holds a row of another kind
    Kind,
    /// the slot begins as a row of the kind does, but no row writes such bytes
    NoRow,
}

/// The number by which a refusal is known.
impl From<GetRefusal> for u8 {
    ghost from_gives = { λ refusal number. number ≡ number_of refusal };

    fn from(refusal: GetRefusal) -> u8 {
        match refusal {
            GetRefusal::Range => 1,
            GetRefusal::Busy => 2,
            GetRefusal::Kind => 11,
            GetRefusal::NoRow => 12,
        }
    }
}

/// What a get answers if no row could be read from the slot.
impl From<RowRefusal> for GetRefusal {
    ghost from_gives = { λ refusal answer. answer ≡ read_refusal refusal };

    fn from(refusal: RowRefusal) -> GetRefusal {
        match refusal {
            RowRefusal::Length => GetRefusal::Range,
            RowRefusal::Kind => GetRefusal::Kind,
            RowRefusal::NoRow => GetRefusal::NoRow,
        }
    }
}
