// A frame taken apart: the code, three address bytes, and the rest.
ghost use Rattle.std.specs.Prelude.{◌≡◌, ℕ, ◌^◌, ◌<◌, length};
ghost use Rattle.ft25h08_commands.specs.Frames.{command_in, address_in, code_in, data_in, region_length};

/// How much of the array an erase covers: the sector of 4,096 bytes, or the block of 32,768 or 65,536 bytes.
#[derive(Clone, Copy)]
pub enum EraseSize {
    Sector,
    Block32,
    Block64,
}

/// What a frame asks for. The addresses are the 24 bits that came in.
#[derive(Clone, Copy)]
pub enum Command {
    WriteEnable,
    WriteDisable,
    DeepPowerDown,
    Release,
    ReadStatusLow,
    ReadStatusHigh,
    Read { at: u32 },
    FastRead { at: u32 },
    ReadSecurity { at: u32 },
    WriteStatus { low: u8, high: u8 },
    Program { at: u32 },
    ProgramSecurity { at: u32 },
    Erase { at: u32, size: EraseSize },
    EraseChip,
    EraseSecurity,
    Unlisted,
}

impl EraseSize {
    /// The number of bytes.
    pub fn bytes(self) -> u32
        ensures { result ≡ region_length self }
    {
        match self {
            EraseSize::Sector => 4096,
            EraseSize::Block32 => 32_768,
            EraseSize::Block64 => 65_536,
        }
    }
}

// The code, or 0 in a frame without a whole byte.
pub(crate) fn code_in(frame: &[u8]) -> u8
    ensures { result ≡ code_in frame.now }
{
    match frame {
        [code, ..] => *code,
        [] => 0,
    }
}

// The address, or 0 in a frame that has none.
pub(crate) fn address_in(frame: &[u8]) -> u32
    ensures value { result ≡ address_in frame.now }
    ensures bound { result < 2 ^ 24 }
{
    match frame {
        [_, high, middle, low, ..] => u32::from_be_bytes([0, *high, *middle, *low]),
        _ => 0,
    }
}

/// What follows the address: the data bytes of a program frame.
pub fn data_in(frame: &[u8]) -> &[u8]
    ensures { result.now ≡ data_in frame.now }
{
    match frame {
        [_, _, _, _, rest @ ..] => rest,
        _ => &[],
    }
}

/// The command that a frame gives.
pub fn decode(frame: &[u8]) -> Command
    ensures { result ≡ command_in frame.now }
{
    let at = address_in(frame);
    match frame {
        [0x06, ..] => Command::WriteEnable,
        [0x04, ..] => Command::WriteDisable,
        [0xB9, ..] => Command::DeepPowerDown,
        [0xAB, ..] => Command::Release,
        [0x05, ..] => Command::ReadStatusLow,
        [0x35, ..] => Command::ReadStatusHigh,
        [0x03, ..] => Command::Read { at },
        [0x0B | 0x3B | 0x6B, ..] => Command::FastRead { at },
        [0x48, ..] => Command::ReadSecurity { at },
        [0x01, low, high, ..] => Command::WriteStatus {
            low: *low,
            high: *high,
        },
        [0x01, low] => Command::WriteStatus { low: *low, high: 0 },
        [0x02 | 0x32, ..] => Command::Program { at },
        [0x42, ..] => Command::ProgramSecurity { at },
        [0x20, ..] => Command::Erase {
            at,
            size: EraseSize::Sector,
        },
        [0x52, ..] => Command::Erase {
            at,
            size: EraseSize::Block32,
        },
        [0xD8, ..] => Command::Erase {
            at,
            size: EraseSize::Block64,
        },
        [0x60 | 0xC7, ..] => Command::EraseChip,
        [0x44, ..] => Command::EraseSecurity,
        _ => Command::Unlisted,
    }
}
