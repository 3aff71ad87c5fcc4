//! The field program: bytes and calibration rows into flash images.
#![tactic(auto)]

mod complaint;
mod files;
mod help;
mod images;
mod putting;
mod reading;
mod story;
mod told;
mod typed;
mod write;

use complaint::Complaint;
use help::print_help;
use putting::put;
use reading::{get, list};
use rows::{Reflector, Row, Temperature};
use std::env;
use std::process::ExitCode;
use story::tell_story;
use told::Tell;
use typed::Typed;
use write::write;

// What is to be done with the rows of an image file.
#[derive(Clone, Copy)]
enum Task<'a> {
    List,
    Get(&'a str),
    Put(&'a str, &'a str, &'a str),
}

// Does the task with rows of one kind.
fn run_rows<R: Row + Typed + Tell + Drop>(
    rt: &HostRuntime,
    image: &str,
    task: Task<'_>,
) -> Result<(), Complaint> {
    match task {
        Task::List => list::<R>(rt, image),
        Task::Get(slot) => get::<R>(rt, image, slot),
        Task::Put(slot, first, second) => put::<R>(rt, image, slot, first, second),
    }
}

// Does the task with rows of the kind that a word names.
fn run_kind(rt: &HostRuntime, kind: &str, image: &str, task: Task<'_>) -> Result<(), Complaint> {
    match kind {
        "temperature" => run_rows::<Temperature>(rt, image, task),
        "reflector" => run_rows::<Reflector>(rt, image, task),
        _ => Err(Complaint::Kind),
    }
}

// Runs the command that the arguments name; without any it tells the story.
fn run_words(rt: &HostRuntime, words: &[&str]) -> Result<(), Complaint> {
    match *words {
        [] => tell_story(rt),
        ["list", kind, image] => run_kind(rt, kind, image, Task::List),
        ["get", kind, image, slot] => run_kind(rt, kind, image, Task::Get(slot)),
        ["put", kind, image, slot, first, second] => {
            run_kind(rt, kind, image, Task::Put(slot, first, second))
        }
        ["write", image, address, file] => write(rt, image, address, file),
        ["help"] => print_help(rt),
        _ => Err(Complaint::Usage),
    }
}

fn run(rt: &HostRuntime) -> Result<(), Complaint> {
    let args: Vec<String> = env::args(rt)?.skip(1).collect(rt.alloc())?;
    let words: Vec<&str> = args.iter().map(|word| word.as_str()).collect(rt.alloc())?;
    run_words(rt, words.as_slice())
}

fn main(rt: HostRuntime) -> ExitCode {
    match run(&rt) {
        Ok(()) => ExitCode::SUCCESS,
        Err(complaint) => {
            let _ = eprintln!(rt; "calibrate: {complaint}");
            ExitCode::FAILURE
        }
    }
}
