//! Replays a trace from standard input over a newborn FT25H08 of 65,536 FF bytes, and prints what it answers.
#![tactic(auto)]

mod bench;
mod part;
mod record;
mod replay;
mod text;

use part::newborn_bench;
use replay::Replay;
use std::alloc::AllocError;
use std::io::{self, ErrorKind, Read, Write};
use text::Text;

// A trace begins with room for this many bytes. From there the room grows by an eighth and then doubles, so that a trace
// whose length is a power of two does not fill it just before its end.
const ROOM: usize = 1_048_576;

// Memory that runs out while the trace is read is told as it is everywhere else in the program.
fn unread(error: io::Error) -> anyhow::Error {
    match error.kind() {
        ErrorKind::OutOfMemory if error.raw_os_error().is_none() => AllocError.into(),
        _ => error.into(),
    }
}

fn read_trace(rt: &HostRuntime) -> anyhow::Result<Vec<u8>> {
    let mut trace = Vec::with_capacity(rt.alloc(), ROOM)?;
    rt.stdin().read_to_end(&mut trace).map_err(unread)?;
    Ok(trace)
}

fn replay_trace(rt: &HostRuntime) -> anyhow::Result<()> {
    let trace = read_trace(rt)?;
    let mut replay = Replay::new(newborn_bench(rt.alloc())?);
    let mut out = Text::new(rt.alloc());
    for _ in 0..u64::MAX {
        let more = replay.run(trace.as_slice(), &mut out)?;
        rt.stdout().write_all(out.as_slice())?;
        out.clear();
        if !more {
            break;
        }
    }
    Ok(())
}

fn main(rt: HostRuntime) -> anyhow::Result<()> {
    replay_trace(&rt)
}
