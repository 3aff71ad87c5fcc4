// Refusals of the calls other than a frame.
ghost use Rattle.std.specs.Prelude.{◌≡◌};
ghost use Rattle.ft25h08.specs.Refusals.{birth_number, pin_number, cut_number};

/// Why no chip can be born over an array.
#[derive(Clone, Copy, PartialEq, Eq, Debug)]
pub enum BirthRefusal {
    /// the array's length is not 65,536 × 1, 2, 4, 8 or 16
    Length,
    /// a tick count is 0
    Ticks,
}

/// Why the WP# pin was not set.
#[derive(Clone, Copy, PartialEq, Eq, Debug)]
pub enum PinRefusal {
    /// a level other than 0 and 1
    Level,
}

/// Why a power cut was not taken.
#[derive(Clone, Copy, PartialEq, Eq, Debug)]
pub enum CutRefusal {
    /// no junk, or more than the array is long
    JunkLength,
}

/// The number by which the refusal of a birth is known.
impl From<BirthRefusal> for u8 {
    ghost from_gives = { λ refusal number. number ≡ birth_number refusal };

    fn from(refusal: BirthRefusal) -> u8 {
        match refusal {
            BirthRefusal::Length => 1,
            BirthRefusal::Ticks => 1,
        }
    }
}

/// The number by which the refusal of a level of the pin is known.
impl From<PinRefusal> for u8 {
    ghost from_gives = { λ refusal number. number ≡ pin_number refusal };

    fn from(refusal: PinRefusal) -> u8 {
        match refusal {
            PinRefusal::Level => 1,
        }
    }
}

/// The number by which the refusal of a power cut is known.
impl From<CutRefusal> for u8 {
    ghost from_gives = { λ refusal number. number ≡ cut_number refusal };

    fn from(refusal: CutRefusal) -> u8 {
        match refusal {
            CutRefusal::JunkLength => 1,
        }
    }
}
