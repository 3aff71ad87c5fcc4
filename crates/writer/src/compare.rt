// What stands against what is wanted, byte by byte.
ghost use Rattle.std.specs.Prelude.{◌≡◌, not, length, nat_eq, ◌==◌};
ghost use Rattle.std.specs.List.{list_any, zip};
ghost use lib.Pointwise.{pointwise};
ghost use Rattle.cells.specs.Bits.{rises};
ghost use Rattle.cells.specs.Tests.{any_in};
ghost use Rattle.writer.specs.Needed.{differs_at, rises_at, written_at};

// Whether two slices are not the same, byte for byte.
fn are_unlike(old: &[u8], new: &[u8]) -> bool
    ensures { result ≡ not (pointwise nat_eq old.now new.now) }
{
    old != new
}

// Whether some byte has to change.
pub(crate) fn any_differs(old: &[u8], new: &[u8]) -> bool
    requires { length old.now ≡ length new.now }
    ensures { result ≡ any_in (differs_at old.now new.now) 0 (length new.now) }
{
    are_unlike(old, new)
}

// Whether a byte that is to stand in an erased place has to be programmed: it is not FF.
fn is_written(new: u8) -> bool
    ensures { result ≡ not (255 == new) }
{
    0xff != new
}

// Whether some byte is not FF.
pub(crate) fn any_written(new: &[u8]) -> bool
    ensures { result ≡ any_in (written_at new.now) 0 (length new.now) }
{
    new.iter().any(|new| is_written(*new))
}

// Whether some bit has to go from 0 to 1: an AND with the new byte does not give the new byte.
#[tactic(auto, using(cells::proofs::Rising::rises_is))]
fn must_rise(old: u8, new: u8) -> bool
    ensures { result ≡ rises old new }
{
    old & new != new
}

// Whether some bit of some byte of a chunk has to go from 0 to 1. All of it is looked at, which lets the processor look
// at many bytes at once.
fn chunk_rises(old: &[u8], new: &[u8]) -> bool
    ensures { result ≡ list_any (λ pair. rises pair.0 pair.1) (zip old.now new.now) }
{
    old.iter()
        .zip(new)
        .fold(false, |found, (old, new)| found | must_rise(*old, *new))
}

// Whether some bit of some byte has to go from 0 to 1. No chunk is looked at after the first that has one.
pub(crate) fn any_rises(old: &[u8], new: &[u8]) -> bool
    requires { length old.now ≡ length new.now }
    ensures { result ≡ any_in (rises_at old.now new.now) 0 (length new.now) }
{
    old.chunks(256)
        .zip(new.chunks(256))
        .any(|(old, new)| chunk_rises(old, new))
}
