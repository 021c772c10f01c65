// Times the workloads.
//
// iobufs_bench [--sums] NAME..: with `--sums` prints what one run of each saw.
#![tactic(auto)]

mod codec;
mod everyday;
mod frames;
mod lists;
mod run;
mod single;
mod texts;
mod turns;
mod workloads;

use run::{Run, RunError};
use std::process::ExitCode;
use std::time::Instant;
use std::{env, io};
use workloads::run_named;

// The requested output: times or sums of these workloads.
#[derive(Drop)]
struct Request {
    is_sums: bool,
    names: Vec<String>,
}

fn requested(rt: &HostRuntime) -> Result<Request, RunError> {
    let mut is_sums = false;
    let mut names = Vec::new(rt.alloc());
    for word in env::args(rt)?.skip(1) {
        if word.as_str() == "--sums" {
            is_sums = true;
        } else {
            names.push(word)?;
        }
    }
    if names.is_empty() {
        return Err(RunError::NoName);
    }
    Ok(Request { is_sums, names })
}

// The picoseconds of each of `ops` operations that took `nanos` nanoseconds together, and 0 of none.
fn picoseconds_each(nanos: u64, ops: usize) -> u64 {
    let picos = nanos.saturating_mul(1000);
    picos.checked_div(ops as u64).unwrap_or(0)
}

// The picoseconds of an operation over as many runs as make 8 milliseconds of timed work, or 60 in all.
fn repetition(rt: &HostRuntime, name: &str) -> Result<u64, RunError> {
    let mut nanos = 0u64;
    let mut ops = 0usize;
    let begun = Instant::now(rt)?;
    for _ in 0..100_000 {
        let run = run_named(rt, name)?;
        let Some(time) = run.time else {
            return Err(RunError::Clock);
        };
        nanos = nanos.saturating_add(u64::try_from(time.as_nanos()).unwrap_or(u64::MAX));
        ops = ops.saturating_add(run.ops);
        if nanos >= 8_000_000 || begun.elapsed(rt)?.as_millis() >= 60 {
            break;
        }
    }
    Ok(picoseconds_each(nanos, ops))
}

// The least of five repetitions.
fn least(rt: &HostRuntime, name: &str) -> Result<u64, RunError> {
    let mut least = repetition(rt, name)?;
    for _ in 0..4 {
        least = least.min(repetition(rt, name)?);
    }
    Ok(least)
}

fn answer(rt: &HostRuntime) -> Result<(), RunError> {
    let Request { is_sums, names } = requested(rt)?;
    for name in &names {
        if is_sums {
            let Run { sum, ops, .. } = run_named(rt, name.as_str())?;
            println!(rt; "{name} {} {ops}", sum.value())?;
        } else {
            let picos = least(rt, name.as_str())?;
            println!(rt; "{name} {}.{:03}", picos / 1000, picos % 1000)?;
        }
    }
    Ok(())
}

fn main(rt: HostRuntime) -> ExitCode {
    match answer(&rt) {
        Ok(()) => ExitCode::from(0),
        Err(RunError::NoName) => {
            let _ = eprintln!(&rt; "usage: iobufs_bench [--sums] NAME..");
            ExitCode::from(2)
        }
        Err(stop) => {
            let _ = eprintln!(&rt; "stopped: {stop:?}");
            ExitCode::from(3)
        }
    }
}
