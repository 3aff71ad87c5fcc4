// Changes to a range of cells. A range may reach past the last cell: only the cells that exist change.
ghost use Rattle.std.specs.Prelude.{◌≡◌, ℕ, ◌+◌, ◌<◌, min, true, length};
ghost use Rattle.cells.specs.Bytes.{changed, within, wrapped};
ghost use Rattle.cells.specs.Changes.{programmed, anded, erased, cut_while_programming, cut_while_erasing, from};

// Where a range of `len` cells from `first` on ends among `size` cells.
fn end_of(first: usize, len: usize, size: usize) -> usize
    ensures { result ≡ min (first + len) size }
{
    first.saturating_add(len).min(size)
}

// The byte of a buffer that is repeated over all addresses; 0 if the buffer is empty. Most addresses lie in the buffer, and
// need no division.
fn byte_wrapped(bytes: &[u8], at: usize) -> u8
    ensures { result ≡ wrapped bytes.now at }
{
    if at < bytes.len() {
        bytes[at]
    } else if bytes.is_empty() {
        0
    } else {
        bytes[at % bytes.len()]
    }
}

// Gives each cell of a range the byte that the rule makes of its address and of its old byte. Where the rule is a
// function g of the two, g has changed the range.
pub(crate) fn change_range<F: Fn(usize, u8) -> u8>(
    cells: &mut [u8],
    first: usize,
    len: usize,
    rule: F,
)
    requires { (a old : ℕ) → within first len a ≡ true → a < length cells.old → F.pre rule a old }
    ensures { (g : ℕ → ℕ → ℕ) → ((a old new : ℕ) → F.post rule a old new → new ≡ g a old) → cells.new ≡ changed first len g cells.old }
{
    let end = end_of(first, len, cells.len());
    if first < end {
        for (k, cell) in cells[first..end].iter_mut().enumerate() {
            *cell = rule(first + k, *cell);
        }
    }
}

/// A page program lands: the latch is ANDed into the 256 cells from `first` on.
pub fn program(cells: &mut [u8], first: usize, latch: &[u8; 256])
    ensures after { cells.new ≡ changed first 256 (programmed latch.now) cells.old }
{
    change_range(cells, first, 256, |a, old| old & latch[a % 256]);
}

/// Bytes are programmed at a place: each is ANDed into its cell.
pub fn program_bytes(cells: &mut [u8], at: usize, new: &[u8])
    ensures after { cells.new ≡ changed at (length new.now) (anded at new.now) cells.old }
{
    change_range(cells, at, new.len(), |a, old| old & new[a - at]);
}

/// An erase lands: `len` cells from `first` on become FF.
pub fn erase(cells: &mut [u8], first: usize, len: usize)
    ensures after { cells.new ≡ changed first len erased cells.old }
{
    let end = end_of(first, len, cells.len());
    if first < end {
        cells[first..end].fill(0xff);
    }
}

/// The power fails during a page program: a bit that was to become 0 does so unless the junk has a 1 there.
/// `base` is the address of the first cell; junk goes by address.
pub fn cut_program(cells: &mut [u8], base: u32, first: usize, latch: &[u8; 256], junk: &[u8])
    ensures after { cells.new ≡ changed first 256 (from base (cut_while_programming latch.now junk.now)) cells.old }
{
    change_range(cells, first, 256, |a, old| {
        let address = base as usize + a;
        old & (latch[address % 256] | byte_wrapped(junk, address))
    });
}

/// The power fails during an erase: `len` cells from `first` on hold junk.
/// `base` is the address of the first cell; junk goes by address.
pub fn cut_erase(cells: &mut [u8], base: u32, first: usize, len: usize, junk: &[u8])
    ensures after { cells.new ≡ changed first len (from base (cut_while_erasing junk.now)) cells.old }
{
    change_range(
        cells,
        first,
        len,
        |a, _| byte_wrapped(junk, base as usize + a),
    );
}
