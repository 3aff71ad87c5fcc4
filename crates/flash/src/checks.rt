// The checks that every flash makes.
ghost use Rattle.std.specs.Prelude.{◌≡◌, length};
ghost use Rattle.flash.specs.Answers.{read_answer, start_refusal};
ghost use Rattle.flash.specs.Steps.{read_into};

use crate::refusal::FlashRefusal;

/// Copies bytes from an address on into a buffer, out of all the bytes of a flash. For implementations of a flash.
pub fn read_from(bytes: &[u8], ready: bool, at: usize, out: &mut [u8]) -> Result<(), FlashRefusal>
    ensures answer { result ≡ read_answer at (length out.old) bytes.now ready }
    ensures copied { out.new ≡ read_into result at bytes.now out.old }
{
    let rest = bytes.get(at..).ok_or(FlashRefusal::Range)?;
    let part = rest.get(..out.len()).ok_or(FlashRefusal::Range)?;
    if !ready {
        return Err(FlashRefusal::Busy);
    }
    out.copy_from_slice(part);
    Ok(())
}

/// What is in the way of a change in its place, by whether the flash is ready and the sector protected. For
/// implementations of a flash.
pub fn start_refusal(ready: bool, protected: bool) -> Result<(), FlashRefusal>
    ensures { result ≡ start_refusal ready protected }
{
    if !ready {
        return Err(FlashRefusal::Busy);
    }
    if protected {
        return Err(FlashRefusal::Protected);
    }
    Ok(())
}
