// The protection table: 32 rows, chosen by CMP and BP3 to BP0, each a first address and an end.
ghost use Rattle.std.specs.Prelude.{◌≡◌, ℕ, ◌+◌, ◌<◌, min, max, true, length, nat_lt};
ghost use Rattle.cells.specs.Tests.{any_in};
ghost use Rattle.ft25h08_commands.specs.Status.{row_number};
ghost use Rattle.ft25h08_commands.specs.Protection.{RowOf, every, right_row, protected_by};

use crate::settings::Settings;

/// The addresses from `first` on, `end` excluded.
#[derive(Clone, Copy)]
pub struct Span {
    pub first: u32,
    pub end: u32,
}

const NONE: Span = Span { first: 0, end: 0 };

const ALL: Span = Span {
    first: 0,
    end: 0x100000,
};

const ROWS: [Span; 32] = [
    // CMP 0: from the top
    NONE,
    Span {
        first: 0xF0000,
        end: 0x100000,
    },
    Span {
        first: 0xE0000,
        end: 0x100000,
    },
    Span {
        first: 0xC0000,
        end: 0x100000,
    },
    Span {
        first: 0x80000,
        end: 0x100000,
    },
    ALL,
    ALL,
    ALL,
    ALL,
    ALL,
    ALL,
    ALL,
    ALL,
    ALL,
    ALL,
    ALL,
    // CMP 1: from the bottom
    NONE,
    Span {
        first: 0,
        end: 0x10000,
    },
    Span {
        first: 0,
        end: 0x20000,
    },
    Span {
        first: 0,
        end: 0x40000,
    },
    Span {
        first: 0,
        end: 0x80000,
    },
    ALL,
    ALL,
    ALL,
    ALL,
    ALL,
    ALL,
    ALL,
    ALL,
    ALL,
    ALL,
    ALL,
];

// A row of a table whose rows all pass the one test.
#[tactic(auto, using(crate::proofs::Tables::at, crate::proofs::Tables::right_row_lem))]
fn row_in(rows: &[Span], k: usize) -> Span
    requires within { k < length rows.now }
    requires tested { every right_row 0 rows.now ≡ true }
    ensures { RowOf k result }
{
    rows[k]
}

/// The addresses that the settings protect.
pub fn protected_span(settings: Settings) -> Span
    ensures { RowOf (row_number settings) result }
{
    row_in(&ROWS, settings.row())
}

// Whether one of the `len` addresses from `first` on lies in the span.
fn shares(span: Span, first: u32, len: u32) -> bool
    ensures { result ≡ nat_lt (max span.first first) (min (first + len) span.end) }
{
    let end = first as u64 + len as u64;
    let from = span.first.max(first);
    let to = end.min(span.end as u64);
    (from as u64) < to
}

/// Whether the settings protect one of the `len` bytes from `first` on.
#[tactic(auto, using(cells::proofs::Spans::meets_any))]
pub fn any_protected(settings: Settings, first: u32, len: u32) -> bool
    ensures { result ≡ any_in (protected_by settings) first len }
{
    shares(protected_span(settings), first, len)
}
