// The status register but for its two volatile bits WEL and WIP.
ghost use Rattle.std.specs.Prelude.{◌≡◌, ℕ, ◌+◌, ◌*◌, ◌/◌, ◌%◌, ◌^◌, ◌<◌};
ghost use Rattle.ft25h08_commands.specs.Status.{cleared, row_number, protects_some, is_set, written, low_byte, high_byte, status_word};

/// The bits that a status write may change.
#[derive(Clone, Copy, Default)]
pub struct Settings {
    pub bp0: bool,
    pub bp1: bool,
    pub bp2: bool,
    pub bp3: bool,
    pub srp: bool,
    pub qe: bool,
    pub lb: bool,
    pub cmp: bool,
}

// Bit k of a byte.
fn is_set(byte: u8, k: u32) -> bool
    requires { k < 8 }
    ensures { result ≡ is_set k byte }
{
    (byte >> k) % 2 == 1
}

impl Settings {
    /// A newborn chip's: all 0.
    pub fn new() -> Settings
        ensures { result ≡ cleared }
    {
        Settings::default()
    }

    /// The row of the protection table: CMP, BP3, BP2, BP1, BP0 as a number of five bits.
    pub fn row(self) -> usize
        ensures value { result ≡ row_number self }
        ensures bound { result < 32 }
    {
        self.cmp as usize * 16
            + self.bp3 as usize * 8
            + self.bp2 as usize * 4
            + self.bp1 as usize * 2
            + self.bp0 as usize
    }

    /// Whether BP or CMP is not 0.
    pub fn protects_some(self) -> bool
        ensures { result ≡ protects_some self }
    {
        self.bp0 || self.bp1 || self.bp2 || self.bp3 || self.cmp
    }

    /// What a status write of these two bytes makes of the register. LB once set stays set. A missing second
    /// byte counts as 00: it clears QE and CMP and leaves LB.
    pub fn written(self, low: u8, high: u8) -> Settings
        ensures { result ≡ written self low high }
    {
        Settings {
            bp0: is_set(low, 2),
            bp1: is_set(low, 3),
            bp2: is_set(low, 4),
            bp3: is_set(low, 5),
            srp: is_set(low, 7),
            qe: is_set(high, 1),
            lb: self.lb || is_set(high, 2),
            cmp: is_set(high, 6),
        }
    }

    /// S7 to S0, with the two volatile bits.
    pub fn low_byte(self, wel: bool, wip: bool) -> u8
        ensures { result ≡ low_byte self wel wip }
    {
        wip as u8
            + wel as u8 * 2
            + self.bp0 as u8 * 4
            + self.bp1 as u8 * 8
            + self.bp2 as u8 * 16
            + self.bp3 as u8 * 32
            + self.srp as u8 * 128
    }

    /// S15 to S8.
    pub fn high_byte(self) -> u8
        ensures { result ≡ high_byte self }
    {
        self.qe as u8 * 2 + self.lb as u8 * 4 + self.cmp as u8 * 64
    }

    /// S15 to S0.
    pub fn word(self, wel: bool, wip: bool) -> u16
        ensures { result ≡ status_word self wel wip }
    {
        u16::from_le_bytes([self.low_byte(wel, wip), self.high_byte()])
    }
}
