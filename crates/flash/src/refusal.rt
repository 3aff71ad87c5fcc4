// Why a call on a flash was refused.
ghost use Rattle.std.specs.Prelude.{◌≡◌};
ghost use Rattle.flash.specs.Refusals.{number_of};

/// Why a call on a flash was refused.
#[derive(Clone, Copy, Debug, PartialEq, Eq)]
pub enum FlashRefusal {
    /// it passes the end, is no part of one page, or there is no such sector
    Range,
    /// a change is under way
    Busy,
    /// the sector is protected
    Protected,
}

/// The number by which a refusal is known.
impl From<FlashRefusal> for u8 {
    ghost from_gives = { λ refusal number. number ≡ number_of refusal };

    fn from(refusal: FlashRefusal) -> u8 {
        match refusal {
            FlashRefusal::Range => 1,
            FlashRefusal::Busy => 2,
            FlashRefusal::Protected => 3,
        }
    }
}
