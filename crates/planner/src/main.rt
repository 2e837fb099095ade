// The planner: packs a written plan into the aircraft's plan file, and shows plan files. What a plan, a
// plan file and a table are is proved in the libraries; here bytes only go from files to them and back.
#![tactic(auto)]

use anyhow::anyhow;
use plan::Plan;
use plan_text::{fault_message, message, parse_plan, table};
use records::writing::MOST_PLAN_BYTES;
use records::{read_plan, write_plan};
use std::fmt::Display;
use std::fs::File;
use std::io::Read;
use std::process::ExitCode;
use std::{env, fs, io};

const USAGE: &str = "usage:
  planner pack TEXT FILE   pack the written plan TEXT into the plan file FILE, read it back and show it
  planner show FILE        show the plan file FILE
  planner help             show this

A written plan has a line for each server: 'isolated' or 'shared', the budget and the period in ticks
of a quarter of a millisecond. '#' starts a comment.
";

/// Longer files are not read: the longest plan file has 129 bytes.
const MOST_BYTES: usize = 1_048_576;

// `fail`, `first_bytes`, `run_words` and `main` are much like those of `durashem`: see there.
/// Says what is wrong on standard error, and ends the program with status 1.
fn fail<T, W: Display + Drop>(rt: &HostRuntime, why: W) -> anyhow::Result<T> {
    eprintln!(rt; "{why}")?;
    Err(anyhow!("the planner could not do it"))
}

/// The first bytes of a file, and one more where it is longer than is read.
fn first_bytes(rt: &HostRuntime, path: &str) -> io::Result<Vec<u8>> {
    let mut bytes = Vec::new(rt.alloc());
    File::open(rt, path)?
        .take(MOST_BYTES as u64 + 1)
        .read_to_end(&mut bytes)?;
    Ok(bytes)
}

/// The bytes of a file.
fn bytes_of(rt: &HostRuntime, path: &str) -> anyhow::Result<Vec<u8>> {
    match first_bytes(rt, path) {
        Ok(bytes) if bytes.len() <= MOST_BYTES => Ok(bytes),
        Ok(_) => fail(rt, format_args!("{path} is longer than {MOST_BYTES} bytes")),
        Err(why) => fail(rt, format_args!("cannot read {path}: {why}")),
    }
}

/// The plan in a plan file, with its table on standard output.
fn show(rt: &HostRuntime, path: &str) -> anyhow::Result<Plan> {
    let bytes = bytes_of(rt, path)?;
    let mut plan = Plan::new();
    if let Err(fault) = read_plan(bytes.as_slice(), &mut plan) {
        return fail(rt, fault_message(rt.alloc(), &fault)?);
    }
    let text = table(rt.alloc(), &plan, bytes.len())?;
    print!(rt; "{text}")?;
    Ok(plan)
}

/// The plan in a written plan.
fn written(rt: &HostRuntime, path: &str) -> anyhow::Result<Plan> {
    let bytes = bytes_of(rt, path)?;
    let mut plan = Plan::new();
    if let Err(fault) = parse_plan(bytes.as_slice(), &mut plan) {
        return fail(rt, message(rt.alloc(), &fault)?);
    }
    Ok(plan)
}

/// Writes the plan file of a plan.
fn store(rt: &HostRuntime, path: &str, plan: &Plan) -> anyhow::Result<()> {
    let mut buffer = [0u8; MOST_PLAN_BYTES];
    let length = match write_plan(plan, &mut buffer) {
        Ok(length) => length,
        Err(fault) => return fail(rt, fault_message(rt.alloc(), &fault)?),
    };
    if let Err(why) = fs::write(rt, path, &buffer[0..length]) {
        return fail(rt, format_args!("cannot write {path}: {why}"));
    }
    Ok(())
}

/// Packs a written plan into a plan file, and shows what the file then holds.
fn pack(rt: &HostRuntime, text: &str, file: &str) -> anyhow::Result<()> {
    if text == file {
        return fail(
            rt,
            "TEXT and FILE are the same: the written plan would be lost",
        );
    }
    let plan = written(rt, text)?;
    store(rt, file, &plan)?;
    println!(rt; "packed {text} into {file}")?;
    let back = show(rt, file)?;
    if plan.rows() != back.rows() {
        return fail(rt, "the file does not read back as it was written");
    }
    Ok(())
}

fn run(rt: &HostRuntime, words: &[&str]) -> anyhow::Result<()> {
    match words {
        ["pack", text, file] => pack(rt, text, file),
        ["show", file] => {
            show(rt, file)?;
            Ok(())
        }
        ["help"] => {
            print!(rt; "{USAGE}")?;
            Ok(())
        }
        _ => fail(rt, USAGE),
    }
}

/// Does what the command line asks for. Its first word is the program's own.
fn run_words(rt: &HostRuntime) -> anyhow::Result<()> {
    let words: Vec<String> = env::args(rt)?.skip(1).collect(rt.alloc())?;
    let words: Vec<&str> = words.iter().map(|word| word.as_str()).collect(rt.alloc())?;
    run(rt, words.as_slice())
}

/// Ends with status 1 after a failure. What is wrong with the command line, a file or what it holds has been said by then.
fn main(rt: HostRuntime) -> ExitCode {
    match run_words(&rt) {
        Ok(()) => ExitCode::SUCCESS,
        Err(_) => ExitCode::FAILURE,
    }
}
