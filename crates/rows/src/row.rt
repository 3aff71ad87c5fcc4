// What every kind of row keeps.
ghost use Rattle.std.specs.Prelude.{◌≡◌, ℕ, ◌+◌, ◌<◌, ◌≤◌, List, length, slice_index};
ghost use Rattle.rows.specs.Rows.{ReadsAs, write_answer, written_into};

use crate::refusal::RowRefusal;

/// A kind of row: its kind byte, the length of its body, and the bytes that each of its rows writes.
///
/// A body has 1 to 254 bytes. A kind whose rows would be longer names 255; then no row of it is written or read.
pub trait Row: Sized {
    ghost kind: { ℕ };

    ghost body: { ℕ };

    ghost bytes: { Self → List ℕ };

    /// The kind byte.
    fn kind() -> u8
        ensures { result ≡ kind };

    /// How many bytes follow the kind byte.
    fn body() -> u8
        ensures { result ≡ body };

    /// Writes the row into a buffer of just its length. A refused write leaves the buffer as it was.
    fn write(&self, out: &mut [u8]) -> Result<(), RowRefusal>
        ensures answer { result ≡ write_answer body (length out.old) }
        ensures after { out.new ≡ written_into result (bytes self.now) out.old };

    /// The row that writes just these bytes.
    fn read(from: &[u8]) -> Result<Self, RowRefusal>
        ensures { ReadsAs kind body bytes from.now result };

    /// The kind byte is neither 00 nor FF.
    ghost nonblank: { (0 < kind) × (kind < 255) };

    /// A body has at least one byte; 255 stands for a kind whose rows are too long.
    ghost bounded: { (1 ≤ body) × (body ≤ 255) };

    /// Every row has the kind byte and its body.
    ghost long: { body < 255 → (x : Self) → length (bytes x) ≡ 1 + body };

    /// Every row begins with the kind byte.
    ghost first: { (x : Self) → slice_index (bytes x) 0 ≡ kind };

    /// Rows that write the same bytes are the same.
    ghost one: { body < 255 → (x y : Self) → bytes x ≡ bytes y → x ≡ y };
}
