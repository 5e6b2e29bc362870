//! The model as a program to be run: prints what each partition shows, and when.
#![tactic(auto)]

use files::{Ended, Outside};
use reference::shown::Shown;
use std::process::ExitCode;
use std::{env, fs};

mod files;
mod laid;
mod worked;

const USAGE: &str = "usage: world PLAN ROWS | world PLAN --ticks N | world --worked";

const HELP: &str =
    "world PLAN ROWS        runs a plan on rows of bytes from outside, a tick for each row
world PLAN --ticks N   runs a plan for N ticks in which nothing comes from outside
world --worked         runs the worked plans
It prints '0 at 19: 11' for each byte shown: the partition, the tick in decimal, the byte in two hexadecimal digits;
or 'refused N at P': the refusal's number and its place in the file. The status is 0 when all was done, else 1.";

/// Prints what was shown, partition by partition: the partition, the tick in decimal, and the byte in two hexadecimal
/// digits.
fn print_shown(rt: &HostRuntime, shown: &[Shown]) -> anyhow::Result<()> {
    for q in 0..32u8 {
        for b in shown.iter().filter(|b| b.partition == q) {
            let tick = b.tick;
            let byte = b.byte;
            println!(rt; "{q} at {tick}: {byte:02x}")?;
        }
    }
    Ok(())
}

fn run_case(rt: &HostRuntime, case: &worked::Case) -> anyhow::Result<()> {
    let name = case.name;
    println!(rt; "{name}")?;
    let shown = worked::run(rt.alloc(), case)?;
    print_shown(rt, shown.as_slice())
}

/// Runs the worked plans, each under its name.
fn run_worked(rt: &HostRuntime) -> anyhow::Result<ExitCode> {
    for case in &worked::CASES {
        run_case(rt, case)?;
    }
    Ok(ExitCode::SUCCESS)
}

/// Runs a plan, and prints what was shown, and the refusal if there is one.
fn run(rt: &HostRuntime, plan: &[u8], outside: Outside<'_>) -> anyhow::Result<ExitCode> {
    let mut shown = Vec::new(rt.alloc());
    let end = files::run(rt.alloc(), plan, outside, &mut shown);
    if let Err(Ended::Heap(e)) = end {
        return Err(e.into());
    }
    print_shown(rt, shown.as_slice())?;
    if let Err(Ended::Refused(r)) = end {
        println!(rt; "{r}")?;
        return Ok(ExitCode::FAILURE);
    }
    Ok(ExitCode::SUCCESS)
}

/// Wrong use: says what is wrong, and what to write.
fn wrong(rt: &HostRuntime, what: &str, word: &str) -> anyhow::Result<ExitCode> {
    eprintln!(rt; "world: {what}: {word}")?;
    eprintln!(rt; "{USAGE}")?;
    Ok(ExitCode::FAILURE)
}

fn on_rows(rt: &HostRuntime, plan: &str, rows: &str) -> anyhow::Result<ExitCode> {
    let Ok(bytes) = fs::read(rt, plan) else {
        return wrong(rt, "this plan cannot be read", plan);
    };
    let Ok(row_bytes) = fs::read(rt, rows) else {
        return wrong(rt, "these rows cannot be read", rows);
    };
    run(rt, bytes.as_slice(), Outside::Rows(row_bytes.as_slice(), 0))
}

fn on_ticks(rt: &HostRuntime, plan: &str, number: &str) -> anyhow::Result<ExitCode> {
    let Ok(ticks) = number.parse::<u64>() else {
        return wrong(rt, "behind --ticks stands a number of ticks, not", number);
    };
    let Ok(bytes) = fs::read(rt, plan) else {
        return wrong(rt, "this plan cannot be read", plan);
    };
    run(rt, bytes.as_slice(), Outside::Nothing(ticks))
}

/// Does what the words of the command say; its status is that of success where all was done.
fn start(rt: &HostRuntime, words: &[String]) -> anyhow::Result<ExitCode> {
    match words {
        [a] if a.as_str() == "--worked" => run_worked(rt),
        [a] if a.as_str() == "--help" => {
            println!(rt; "{HELP}")?;
            Ok(ExitCode::SUCCESS)
        }
        [a, b] => on_rows(rt, a.as_str(), b.as_str()),
        [a, b, c] if b.as_str() == "--ticks" => on_ticks(rt, a.as_str(), c.as_str()),
        _ => {
            eprintln!(rt; "{USAGE}")?;
            Ok(ExitCode::FAILURE)
        }
    }
}

fn main(rt: HostRuntime) -> anyhow::Result<ExitCode> {
    let words: Vec<String> = env::args(&rt)?.skip(1).collect(rt.alloc())?;
    start(&rt, words.as_slice())
}
