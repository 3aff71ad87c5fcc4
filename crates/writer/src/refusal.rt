// Why a put was refused.
ghost use Rattle.std.specs.Prelude.{◌≡◌};
ghost use Rattle.writer.specs.Refusals.{number_of};

/// Why a put was refused.
#[derive(Clone, Copy, PartialEq, Eq, Debug)]
pub enum PutRefusal {
    /// it passes the end of the flash, or the work buffer is not 4,096 bytes long
    Range,
    /// a change is under way
    Busy,
    /// this sector would have to change, the first such, and is protected
    Protected { sector: usize },
}

/// The number by which a refusal is known.
impl From<PutRefusal> for u8 {
    ghost from_gives = { λ refusal number. number ≡ number_of refusal };

    fn from(refusal: PutRefusal) -> u8 {
        match refusal {
            PutRefusal::Range => 1,
            PutRefusal::Busy => 2,
            PutRefusal::Protected { sector: _ } => 3,
        }
    }
}
