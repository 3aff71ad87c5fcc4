// The law of rows, for every kind.
ghost use Rattle.std.specs.Prelude.{◌≡◌, length};
ghost use Rattle.rows.specs.Rows.{read_back_answer, write_answer, written_into};

use crate::refusal::RowRefusal;
use crate::row::Row;

/// Writes a row and reads it again: that gives the row.
pub fn read_back<R: Row>(row: &R, work: &mut [u8]) -> Result<R, RowRefusal>
    ensures answer { result ≡ read_back_answer R.Row.body (length work.old) row.now }
    ensures after { work.new ≡ written_into (write_answer R.Row.body (length work.old)) (R.Row.bytes row.now) work.old }
{
    row.write(work)?;
    R::read(work)
}
