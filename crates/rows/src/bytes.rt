// The bytes of a row, on their way into a buffer.
ghost use Rattle.std.specs.Prelude.{◌≡◌, ◌==◌, cond, length, Ok, Err};
ghost use Rattle.rows.specs.declared.refusal.RowRefusal.TheVariants.{Length};
ghost use Rattle.rows.specs.Rows.{written_into};

use crate::refusal::RowRefusal;

// Copies a row's bytes into a buffer of just their length. A refused copy leaves the buffer as it was.
pub(crate) fn copy_row(row: &[u8], out: &mut [u8]) -> Result<(), RowRefusal>
    ensures answer { result ≡ cond (length out.old == length row.now) (Ok tt) (Err Length) }
    ensures after { out.new ≡ written_into result row.now out.old }
{
    if out.len() != row.len() {
        return Err(RowRefusal::Length);
    }
    out.copy_from_slice(row);
    Ok(())
}
