// How many changes a flash has accepted.
ghost use Rattle.std.specs.Prelude.{◌≡◌, ◌+◌, ◌%◌, ◌<◌};

/// How many programs and erases a flash has accepted, each modulo 2^32. For implementations of a flash.
#[derive(Drop)]
pub struct Tallies {
    programs: u32,
    erases: u32,
    ghost few_programs: { programs < 4294967296 },
    ghost few_erases: { erases < 4294967296 },
}

impl Tallies {
    /// None so far.
    pub fn new() -> Tallies
        ensures programs { result.programs ≡ 0 }
        ensures erases { result.erases ≡ 0 }
    {
        Tallies {
            programs: 0,
            erases: 0,
        }
    }

    /// One more program.
    pub fn count_program(&mut self)
        ensures programs { self.new.programs ≡ (self.old.programs + 1) % 4294967296 }
        ensures erases { self.new.erases ≡ self.old.erases }
    {
        self.programs = self.programs.wrapping_add(1);
    }

    /// One more erase.
    pub fn count_erase(&mut self)
        ensures programs { self.new.programs ≡ self.old.programs }
        ensures erases { self.new.erases ≡ (self.old.erases + 1) % 4294967296 }
    {
        self.erases = self.erases.wrapping_add(1);
    }
}
