// A trace replayed record by record.
ghost use Rattle.std.specs.Prelude.{◌≤◌};

use crate::bench::Bench;

mod run;

/// A replay of a trace: the bench, how far it has come in the trace, and how many lines it has printed. Each line
/// comes from a record of at least one byte.
#[derive(Drop)]
pub struct Replay {
    bench: Bench,
    offset: usize,
    lines: usize,
    ghost few: { lines ≤ offset },
}
