// The chip that every trace is replayed over.
ghost use Rattle.std.specs.Prelude.{◌≡◌, IfOk};
ghost use Rattle.ft25h08.specs.Birth.{newborn};
ghost use Rattle.ft25h08.specs.Counts.{bench_ticks};
ghost use Rattle.bench.specs.Newborn.{Blank, OnNewborn};
ghost use Rattle.bench.specs.Plays.{on_bench};
ghost use Rattle.bench.specs.States.{bench_of};

use crate::bench::Bench;
use anyhow::anyhow;
use ft25h08::{Ft25h08, Ticks};
use std::alloc::{AllocError, Global};

// An erased array of 65,536 bytes.
fn blank_array(heap: Global) -> Result<Vec<u8>, AllocError>
    ensures { IfOk result Blank }
{
    vec![in heap; 0xff; 65_536]
}

// A newborn chip over an array, on the bench with CS# high.
fn newborn_over(array: Vec<u8>) -> anyhow::Result<Bench>
    ensures { IfOk result (λ b. bench_of b ≡ on_bench (newborn array.items bench_ticks)) }
{
    let ticks = Ticks::bench();
    Ft25h08::birth_refusal(array.len(), ticks).map_err(|_| anyhow!(
        "no chip can be born over this array"
    ))?;
    Ok(Bench::new(Ft25h08::new(array, ticks)))
}

/// A newborn chip over an erased array of 65,536 bytes, on the bench with CS# high.
pub(crate) fn newborn_bench(heap: Global) -> anyhow::Result<Bench>
    ensures { IfOk result (λ b. OnNewborn (bench_of b)) }
{
    newborn_over(blank_array(heap)?)
}
