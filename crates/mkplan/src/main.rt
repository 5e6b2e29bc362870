//! `mkplan TEXT PLAN` makes a plan's bytes from its text. docs/PLAN-TEXT.md says what the text is.
#![tactic(auto)]

ghost use Rattle.std.specs.Prelude.{◌≡◌, length, IfOk, vec_len};

mod layout;
mod memories;
mod troubles;

use memories::{Loaded, Memory, filled};
use plantext::{Fault, FileFault, Named, Outcome, Partition, Wrong};
use std::alloc::Global;
use std::path::PathBuf;
use std::process::ExitCode;
use std::{env, fs};
use troubles::Trouble;

const HELP: &str =
    "mkplan TEXT PLAN makes the plan's bytes, in the file PLAN, from the text in the file TEXT.
It prints nothing then, and its status is 0. With a fault it prints one line on standard
error, TEXT:LINE: what is wrong; what would be right, its status is 1, and PLAN stays as it is.
The programs' files are taken from the folder of TEXT.";

/// The memory of a partition, with its program's file.
fn load(rt: &HostRuntime, text: &str, partition: &Partition) -> Result<Memory, Fault> {
    let heap = rt.alloc();
    match &partition.memory {
        plantext::Memory::Zeros(pages) => Ok(filled(Vec::new(heap), *pages)?),
        plantext::Memory::Program { file, pages } => {
            let mut path = PathBuf::from_str(heap, text)?;
            path.pop();
            path.push(file.as_str())?;
            let Ok(program) = fs::read(rt, path) else {
                return Err(FileFault::Unreadable(file.clone()?).into());
            };
            let pages = plantext::fitting(heap, file.as_str(), program.len(), *pages)?;
            Ok(filled(program, pages)?)
        }
    }
}

/// The partitions with their memories, in their order.
fn load_all(
    rt: &HostRuntime,
    text: &str,
    partitions: &[Named<Partition>],
) -> Result<Vec<Loaded>, Trouble>
    ensures each { IfOk result (λ v. vec_len v ≡ length partitions.now) }
{
    let heap = rt.alloc();
    let mut all = Vec::new(heap);
    // Stays a loop: the closure of a `map` would be all of its body.
    for named in partitions {
        let partition = &named.item;
        let line = named.name.line;
        let memory = load(rt, text, partition).try_map_err(|fault| Trouble::in_text(
            heap,
            text,
            Wrong { line, fault },
        ))?;
        let tasks = partition.tasks.iter().map(|task| task.item).collect(heap)?;
        all.push(Loaded { tasks, memory })?;
    }
    Ok(all)
}

/// The plan's bytes.
fn made(rt: &HostRuntime, text: &str) -> Result<Vec<u8>, Trouble> {
    let heap = rt.alloc();
    let Ok(source) = fs::read(rt, text) else {
        return Err(Trouble::NotRead(String::from_str(heap, text)?));
    };
    let Outcome { plan, end } = plantext::read(heap, source.as_slice());
    let partitions = load_all(rt, text, plan.partitions.as_slice())?;
    end.try_map_err(|wrong| Trouble::in_text(heap, text, wrong))?;
    layout::plan_bytes(heap, &plan, partitions.as_slice())
}

/// Writes the file, which holds these bytes when it is read again.
fn keep(rt: &HostRuntime, plan: &str, bytes: &[u8]) -> Result<(), Trouble> {
    match fs::write(rt, plan, bytes).and_then(|()| fs::read(rt, plan)) {
        Ok(again) if again.as_slice() == bytes => Ok(()),
        _ => Err(Trouble::NotWritten(String::from_str(rt.alloc(), plan)?)),
    }
}

fn run(rt: &HostRuntime) -> Result<(), Trouble> {
    let args = env::args(rt).map_err(|_| Trouble::Use)?;
    let words: Vec<String> = args.collect(rt.alloc())?;
    match words.as_slice() {
        [_, help] if help.as_str() == "--help" => {
            let _ = rt.println(HELP);
        }
        [_, text, plan] => {
            let bytes = made(rt, text.as_str())?;
            keep(rt, plan.as_str(), bytes.as_slice())?;
            let many = bytes.len();
            let _ = println!(rt; "{plan}: {many} bytes, written and read back");
        }
        _ => return Err(Trouble::Use),
    }
    Ok(())
}

fn main(rt: HostRuntime) -> ExitCode {
    match run(&rt) {
        Ok(()) => ExitCode::SUCCESS,
        Err(trouble) => {
            let _ = eprintln!(rt; "{trouble}");
            ExitCode::FAILURE
        }
    }
}
