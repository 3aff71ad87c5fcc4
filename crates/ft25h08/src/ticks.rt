// How long each kind of change takes.
ghost use Rattle.std.specs.Prelude.{◌≡◌, nat_lt};
ghost use Rattle.ft25h08.specs.Counts.{all_count, bench_ticks};

/// The ticks that each kind of change takes. A tick is the model's unit of time.
#[derive(Clone, Copy)]
pub struct Ticks {
    pub status_write: u16,
    /// a page program, of the array or of a security register
    pub program: u16,
    /// a sector erase, and the erase of the security registers
    pub erase_sector: u16,
    pub erase_block32: u16,
    pub erase_block64: u16,
    pub erase_chip: u16,
}

fn is_count(n: u16) -> bool
    ensures { result ≡ nat_lt 0 n }
{
    n > 0
}

impl Ticks {
    /// The counts of the chips that our programs make. All differ, so that no two kinds of change look alike.
    pub fn bench() -> Ticks
        ensures { result ≡ bench_ticks }
    {
        Ticks {
            status_write: 2,
            program: 3,
            erase_sector: 5,
            erase_block32: 8,
            erase_block64: 13,
            erase_chip: 21,
        }
    }

    /// Whether each count is at least 1.
    #[tactic(auto, unfolding(crate::specs::Counts::all_count))]
    pub fn all_count(self) -> bool
        ensures { result ≡ all_count self }
    {
        is_count(self.status_write)
            && is_count(self.program)
            && is_count(self.erase_sector)
            && is_count(self.erase_block32)
            && is_count(self.erase_block64)
            && is_count(self.erase_chip)
    }
}
