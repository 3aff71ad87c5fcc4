// The two interfaces.
ghost use Rattle.std.specs.Prelude.{◌≡◌, ℕ, ◌≤◌, Bool, true, false, List, length, ◌==◌};
ghost use Rattle.flash.specs.Answers.{read_answer, program_answer, erase_answer, mark_answer};
ghost use Rattle.flash.specs.Meaning.{Meaning, Sound, after_tick, settled};
ghost use Rattle.flash.specs.Steps.{read_into, after_program, after_erase};

use crate::in_progress::InProgress;
use crate::refusal::FlashRefusal;

/// A flash that can be read. It means some bytes, whole sectors of 4,096 and at most 256 of them, and whether it is ready.
pub trait ReadNorFlash {
    ghost bytes: { Self → List ℕ };

    ghost ready: { Self → Bool };

    ghost most: { (f : Self) → length (bytes f) ≤ 1048576 };

    /// How many bytes it has.
    fn capacity(&self) -> usize
        ensures { result ≡ length (bytes self.now) };

    /// Whether it is ready: no change is under way.
    fn is_ready(&self) -> bool
        ensures { result ≡ ready self.now };

    /// Copies bytes from an address on into a buffer. A refused read leaves the buffer as it was.
    fn read(&self, at: usize, out: &mut [u8]) -> Result<(), FlashRefusal>
        ensures answer { result ≡ read_answer at (length out.old) (bytes self.now) (ready self.now) }
        ensures copied { out.new ≡ read_into result at (bytes self.now) out.old };
}

/// A flash that can be written: besides its bytes it means a protected mark for each sector, the ticks left of a
/// change under way, the bytes that will stand afterwards, how many programs and erases it has accepted (modulo
/// 2^32), and how many ticks each takes.
pub trait NorFlash: ReadNorFlash {
    ghost meaning: { Self → Meaning };

    /// Starts to AND 1 to 256 bytes into one page.
    fn program(&mut self, at: usize, new: &[u8]) -> Result<InProgress, FlashRefusal>
        ensures answer { result ≡ program_answer at (length new.now) (meaning self.old) }
        ensures after { meaning self.new ≡ after_program result at new.now (meaning self.old) };

    /// Starts to make a sector FF.
    fn erase_sector(&mut self, sector: usize) -> Result<InProgress, FlashRefusal>
        ensures answer { result ≡ erase_answer sector (meaning self.old) }
        ensures after { meaning self.new ≡ after_erase result sector (meaning self.old) };

    /// One tick passes.
    fn tick(&mut self)
        ensures { meaning self.new ≡ after_tick (meaning self.old) };

    /// Whether a sector is protected.
    fn is_protected(&self, sector: usize) -> Result<bool, FlashRefusal>
        ensures { result ≡ mark_answer sector (meaning self.now) };

    /// How many ticks a program takes.
    fn program_ticks(&self) -> u16
        ensures { result ≡ (meaning self.now).program_ticks };

    /// How many ticks an erase takes.
    fn erase_ticks(&self) -> u16
        ensures { result ≡ (meaning self.now).erase_ticks };

    ghost sound: { (f : Self) → Sound (meaning f) };

    ghost same: { (f : Self) → Self.ReadNorFlash.bytes f ≡ (meaning f).bytes };

    ghost rests: { (f : Self) → Self.ReadNorFlash.ready f ≡ ((meaning f).left == 0) };
}

/// Ticks until the flash is ready, spends the mark, and answers how many ticks that took.
pub fn wait<F: NorFlash>(flash: &mut F, change: &mut InProgress) -> u32
    requires { change.old.spent ≡ false }
    ensures ticks { result ≡ (F.NorFlash.meaning flash.old).left }
    ensures after { F.NorFlash.meaning flash.new ≡ settled (F.NorFlash.meaning flash.old) }
    ensures spent { change.new.spent ≡ true }
{
    let mut ticks = 0;
    while !flash.is_ready() {
        flash.tick();
        ticks += 1;
    }
    change.spend();
    ticks
}
