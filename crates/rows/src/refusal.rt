// Why a call on a row was refused.
ghost use Rattle.std.specs.Prelude.{◌≡◌};
ghost use Rattle.rows.specs.Refusals.{row_number_of};

/// Why a call on a row was refused.
#[derive(Clone, Copy, PartialEq, Eq, Debug)]
pub enum RowRefusal {
    /// the bytes are not as many as a row of this kind has
    Length,
    /// the first byte is that of another kind, or FF
    Kind,
    /// outside the limits of the kind: there is no such row
    NoRow,
}

/// The number by which a refusal is known.
impl From<RowRefusal> for u8 {
    ghost from_gives = { λ refusal number. number ≡ row_number_of refusal };

    fn from(refusal: RowRefusal) -> u8 {
        match refusal {
            RowRefusal::Length => 1,
            RowRefusal::Kind => 11,
            RowRefusal::NoRow => 12,
        }
    }
}
