// Whether a frame is accepted: the checks in their fixed order, of which the first to fail answers.
ghost use Rattle.std.specs.Prelude.{◌≡◌, ℕ, ◌^◌, ◌<◌, ◌≤◌, length, MatchOption};
ghost use Rattle.ft25h08_commands.specs.Frames.{among, region_of};
ghost use Rattle.ft25h08_commands.specs.Rules.{number_of, verdict, rules, is_asleep, is_busy, is_locked, touches_protected};

use crate::capacity::Capacity;
use crate::command::{address_in, code_in};
use crate::conditions::{Conditions, Mode};
use crate::protection::any_protected;
use crate::shape::shape_of;

/// Why a frame was refused.
#[derive(Clone, Copy, PartialEq, Eq, Debug)]
pub enum FrameRefusal {
    /// more than 4,096 bytes, more than 7 odd bits, or an answer buffer shorter than the frame
    Size,
    /// a change is under way
    Busy,
    /// a byte that the frame would change is protected
    Protected,
    /// the chip is in deep power-down
    Asleep,
    /// no command has this code
    Unlisted,
    /// the frame has the wrong shape for its code, or no whole byte
    Shape,
    /// WEL is 0
    NotEnabled,
    /// a command over four lines, and QE is 0
    QuadDisabled,
    /// the security registers are locked, or the status register is
    Locked,
    /// no security register has the address
    NoSuchRegister,
}

/// The number by which a refusal is known.
impl From<FrameRefusal> for u8 {
    ghost from_gives = { λ refusal number. number ≡ number_of refusal };

    fn from(refusal: FrameRefusal) -> u8 {
        match refusal {
            FrameRefusal::Size => 1,
            FrameRefusal::Busy => 2,
            FrameRefusal::Protected => 3,
            FrameRefusal::Asleep => 4,
            FrameRefusal::Unlisted => 5,
            FrameRefusal::Shape => 6,
            FrameRefusal::NotEnabled => 7,
            FrameRefusal::QuadDisabled => 8,
            FrameRefusal::Locked => 9,
            FrameRefusal::NoSuchRegister => 10,
        }
    }
}

impl Mode {
    fn is_asleep(self) -> bool
        ensures { result ≡ is_asleep self }
    {
        matches!(self, Mode::Asleep)
    }

    fn is_busy(self) -> bool
        ensures { result ≡ is_busy self }
    {
        matches!(self, Mode::Busy)
    }
}

// The codes that start a change.
const CHANGE_CODES: [u8; 10] = [0x01, 0x02, 0x32, 0x20, 0x52, 0xD8, 0x60, 0xC7, 0x42, 0x44];

// The codes that use all four lines.
const QUAD_CODES: [u8; 2] = [0x6B, 0x32];

// The codes whose address is one of the security registers'.
const SECURITY_CODES: [u8; 2] = [0x42, 0x48];

// The codes that show the status.
const STATUS_CODES: [u8; 2] = [0x05, 0x35];

// The codes that erase the whole array.
const CHIP_CODES: [u8; 2] = [0x60, 0xC7];

// Whether a code is one of these.
fn is_among(code: u8, codes: &[u8]) -> bool
    ensures { result ≡ among code codes.now }
{
    codes.contains(&code)
}

// How many array bytes, from a whole multiple of that number on, a code changes, if it changes a region: a page, a
// sector or a block.
fn region_of(code: u8) -> Option<u32>
    ensures { MatchOption result (region_of code ≡ 0) (λ len. (len ≡ region_of code) × (0 < len)) }
{
    match code {
        0x02 | 0x32 => Some(256),
        0x20 => Some(4096),
        0x52 => Some(32_768),
        0xD8 => Some(65_536),
        _ => None,
    }
}

fn is_locked(conditions: Conditions, code: u8) -> bool
    ensures { result ≡ is_locked conditions code }
{
    match code {
        0x42 | 0x44 => conditions.settings.lb,
        0x01 => conditions.settings.srp && !conditions.wp_high,
        _ => false,
    }
}

#[tactic(auto, unfolding(crate::specs::Rules::touches_protected, cells::specs::Tests::any_in))]
fn touches_protected(conditions: Conditions, capacity: Capacity, code: u8, at: u32) -> bool
    ensures { result ≡ touches_protected conditions capacity.bytes code at }
{
    if is_among(code, &CHIP_CODES) {
        return conditions.settings.protects_some();
    }
    let Some(len) = region_of(code) else {
        return false;
    };
    let address = at % capacity.bytes();
    any_protected(conditions.settings, address - address % len, len)
}

/// Whether a frame of whole bytes and `odd` further bits is accepted, where the answer buffer has `room` bytes.
pub fn admit(
    conditions: Conditions,
    capacity: Capacity,
    frame: &[u8],
    odd: u8,
    room: usize,
) -> Result<(), FrameRefusal>
    ensures { result ≡ verdict (rules conditions capacity.bytes frame.now odd room) }
{
    let n = frame.len();
    let code = code_in(frame);
    let at = address_in(frame);
    match shape_of(code) {
        _ if n > 4096 || odd > 7 || room < n => Err(FrameRefusal::Size),
        _ if n == 0 => Err(FrameRefusal::Shape),
        _ if conditions.mode.is_asleep() && code != 0xAB => Err(FrameRefusal::Asleep),
        None => Err(FrameRefusal::Unlisted),
        _ if conditions.mode.is_busy() && !is_among(code, &STATUS_CODES) => Err(FrameRefusal::Busy),
        Some(shape) if !shape.fits(n, odd) => Err(FrameRefusal::Shape),
        _ if is_among(code, &CHANGE_CODES) && !conditions.write_enabled => Err(
            FrameRefusal::NotEnabled,
        ),
        _ if is_among(code, &QUAD_CODES) && !conditions.settings.qe => Err(
            FrameRefusal::QuadDisabled,
        ),
        _ if is_among(code, &SECURITY_CODES) && at > 0x3FF => Err(FrameRefusal::NoSuchRegister),
        _ if touches_protected(conditions, capacity, code, at) => Err(FrameRefusal::Protected),
        _ if is_locked(conditions, code) => Err(FrameRefusal::Locked),
        _ => Ok(()),
    }
}
