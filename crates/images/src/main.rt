//! Runs one script over an image in memory and over an FT25H08 taken as a flash, and prints what each answers.
#![tactic(auto)]

mod outcome;
mod play;
mod script;
mod subjects;

use flash::NorFlash;
use play::play;
use script::SCRIPT;
use subjects::{new_image, taken_chip};

fn run<F: NorFlash>(rt: &HostRuntime, name: &str, flash: &mut F) -> anyhow::Result<()> {
    for (i, step) in SCRIPT.iter().enumerate() {
        let line = i + 1;
        match play(flash, *step) {
            Ok(outcome) => println!(rt; "{name} {line} {outcome}")?,
            Err(why) => println!(rt; "{name} {line} refused {}", u8::from(why))?,
        }
    }
    Ok(())
}

fn run_both(rt: &HostRuntime) -> anyhow::Result<()> {
    run(rt, "image", &mut new_image(rt.alloc())?)?;
    run(rt, "chip", &mut taken_chip(rt.alloc())?)
}

fn main(rt: HostRuntime) -> anyhow::Result<()> {
    run_both(&rt)
}
