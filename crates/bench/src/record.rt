// The records of a trace.
ghost use Rattle.std.specs.Prelude.{◌≡◌, ℕ, ◌≤◌, length};
ghost use Rattle.bench.specs.Records.{record_in, record_length, lines_of};

/// One thing that happens to the chip on the bench.
#[derive(Clone, Copy)]
pub enum Record {
    /// a byte is clocked in
    Byte { byte: u8 },
    /// CS# goes low: a frame begins
    SelectLow,
    /// CS# goes high, after so many bits beyond the last whole byte: the frame ends
    SelectHigh { odd: u8 },
    /// so many ticks pass
    Ticks { count: u16 },
    /// the WP# pin is put to a level
    WpPin { level: u8 },
    /// the power fails, and cells in the middle of a change hold this byte
    PowerCut { junk: u8 },
}

/// The first record of what is left of a trace; none if its kind is unknown or its body is cut off.
pub(crate) fn record_in(rest: &[u8]) -> Option<Record>
    ensures { result ≡ record_in rest.now }
{
    match rest {
        [0x01, byte, ..] => Some(Record::Byte { byte: *byte }),
        [0x02, ..] => Some(Record::SelectLow),
        [0x03, odd, ..] => Some(Record::SelectHigh { odd: *odd }),
        [0x04, low, high, ..] => Some(Record::Ticks {
            count: u16::from_le_bytes([*low, *high]),
        }),
        [0x05, level, ..] => Some(Record::WpPin { level: *level }),
        [0x06, junk, ..] => Some(Record::PowerCut { junk: *junk }),
        _ => None,
    }
}

impl Record {
    /// How many bytes the record takes, its kind byte included.
    pub(crate) fn len(self) -> usize
        ensures value { result ≡ record_length self }
        ensures low_bound { 1 ≤ result }
        ensures high_bound { result ≤ 3 }
    {
        match self {
            Record::SelectLow => 1,
            Record::Ticks { count: _ } => 3,
            _ => 2,
        }
    }

    /// How many lines the record prints.
    pub(crate) fn lines(self) -> usize
        ensures value { result ≡ lines_of self }
        ensures bound { result ≤ 1 }
    {
        match self {
            Record::Byte { byte: _ } | Record::SelectLow => 0,
            _ => 1,
        }
    }
}
