// How a frame grows.
ghost use Rattle.std.specs.Prelude.{◌≡◌, ◌∷◌, IfSome};
ghost use Rattle.bench.specs.Clocked.{Clocked};

use arrayvec::ArrayVec;

// The byte that the first record of a trace clocks in, if it is a byte record, and what is left after it.
fn next_byte(rest: &[u8]) -> Option<(u8, &[u8])>
    ensures { IfSome result (λ next. rest.now ≡ 1 ∷ next.0 ∷ next.1.now) }
{
    match rest {
        [0x01, byte, tail @ ..] => Some((*byte, tail)),
        _ => None,
    }
}

/// Clocks in the byte records at the front of `rest` as long as there is room, and answers how many.
pub(crate) fn clock_into(frame: &mut ArrayVec<u8, 4096>, rest: &[u8]) -> usize
    ensures { Clocked result rest.now frame.old.items frame.new.items }
{
    let before = frame.len();
    let mut left = rest;
    while let Some((byte, tail)) = next_byte(left) {
        if frame.is_full() {
            break;
        }
        frame.push(byte);
        left = tail;
    }
    frame.len() - before
}
