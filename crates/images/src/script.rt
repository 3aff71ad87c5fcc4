// The steps that are run over every flash.

/// One step of the script.
#[derive(Clone, Copy)]
pub enum Step {
    /// program so many bytes, all alike, and wait
    Program { at: usize, count: usize, byte: u8 },
    /// erase a sector, and wait
    Erase { sector: usize },
    /// read one byte
    Read { at: usize },
    /// start the program of one byte, read that byte before the change has landed, and wait
    ReadTooSoon { at: usize, byte: u8 },
    /// ask whether a sector is protected
    Mark { sector: usize },
}

/// Each call accepted, each refusal, and bits that only an erase brings back. Sectors 0 to 15 of 32 are protected.
pub(crate) const SCRIPT: [Step; 20] = [
    Step::Mark { sector: 15 },
    Step::Mark { sector: 16 },
    Step::Mark { sector: 32 },
    Step::Read { at: 65_536 },
    Step::Program {
        at: 65_536,
        count: 1,
        byte: 0x3c,
    },
    Step::Read { at: 65_536 },
    Step::Program {
        at: 65_536,
        count: 256,
        byte: 0xf0,
    },
    Step::Read { at: 65_536 },
    Step::Read { at: 65_791 },
    Step::Read { at: 65_792 },
    Step::ReadTooSoon {
        at: 65_536,
        byte: 0x0f,
    },
    Step::Read { at: 65_536 },
    Step::Erase { sector: 16 },
    Step::Read { at: 65_536 },
    Step::Program {
        at: 65_537,
        count: 256,
        byte: 0x00,
    },
    Step::Program {
        at: 65_536,
        count: 0,
        byte: 0x00,
    },
    Step::Program {
        at: 65_535,
        count: 1,
        byte: 0x00,
    },
    Step::Erase { sector: 15 },
    Step::Erase { sector: 32 },
    Step::Read { at: 131_072 },
];
