// How a replay goes on.
ghost use Rattle.std.specs.Prelude.{◌≡◌, ℕ, ◌≤◌, ◌++◌, length, drop, IfOk, OnOk};
ghost use Rattle.bench.specs.Gathered.{text_of};
ghost use Rattle.bench.specs.Replays.{replay_of, begins, Piece, Further, SameText, last_text};
ghost use Rattle.bench.specs.States.{bench_of};

use crate::bench::Bench;
use crate::record::record_in;
use crate::replay::Replay;
use crate::text::Text;
use std::alloc::AllocError;

// Text is handed over in pieces of about this many bytes.
const PIECE: usize = 65_536;

// What is left of a trace from an offset on.
fn rest_of(trace: &[u8], offset: usize) -> &[u8]
    ensures { result.now ≡ drop offset trace.now }
{
    trace.get(offset..).unwrap_or(&[])
}

impl Replay {
    /// A replay from the first record on.
    pub(crate) fn new(bench: Bench) -> Replay
        ensures { replay_of result ≡ begins (bench_of bench) }
    {
        Replay {
            bench,
            offset: 0,
            lines: 0,
        }
    }

    /// Goes on with the trace until a piece of text is gathered, and answers whether there is more to come.
    pub(crate) fn run(&mut self, trace: &[u8], out: &mut Text) -> Result<bool, AllocError>
        ensures { IfOk result (λ more. Piece trace.now (replay_of self.old) (replay_of self.new) (text_of out.old) (text_of out.new) more) }
    {
        while out.len() < PIECE {
            if !self.step(trace, out)? {
                return Ok(false);
            }
        }
        Ok(true)
    }

    // One record: prints its line, or the last line of the replay. Answers whether there is more to come.
    fn step(&mut self, trace: &[u8], out: &mut Text) -> Result<bool, AllocError>
        ensures piece { IfOk result (λ more. Piece trace.now (replay_of self.old) (replay_of self.new) (text_of out.old) (text_of out.new) more) }
        ensures further { IfOk result (λ more. Further (length trace.now) self.old.offset self.new.offset more) }
    {
        self.clock(trace);
        let rest = rest_of(trace, self.offset);
        if rest.is_empty() {
            self.end(out)?;
            return Ok(false);
        }
        let Some(record) = record_in(rest) else {
            out.push_fault(self.offset as u64)?;
            return Ok(false);
        };
        if !self.bench.allows(record) {
            out.push_fault(self.offset as u64)?;
            return Ok(false);
        }
        self.bench.play(record, self.lines as u64 + 1, out)?;
        self.offset += record.len();
        self.lines += record.lines();
        Ok(true)
    }

    // The trace ends: the status, or a fault if CS# is still low.
    fn end(&self, out: &mut Text) -> Result<(), AllocError>
        ensures { OnOk result (text_of out.new ≡ text_of out.old ++ last_text (replay_of self.now)) }
    {
        if self.bench.is_selected() {
            out.push_fault(self.offset as u64)
        } else {
            out.push_status(self.bench.status())
        }
    }

    // While CS# is low, takes all the byte records that come next at once.
    fn clock(&mut self, trace: &[u8])
        ensures same { SameText trace.now (replay_of self.old) (replay_of self.new) }
        ensures on { self.old.offset ≤ self.new.offset }
    {
        if self.bench.is_selected() {
            let n = self.bench.clock(rest_of(trace, self.offset));
            self.offset += 2 * n;
        }
    }
}
