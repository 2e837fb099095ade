// Durashem: flies a trace on the executive of a plan, and lists every tick. What is read, flown and listed is proved in
// the libraries; here bytes only go from files to them, and lines to the standard output.
#![tactic(auto)]

use anyhow::anyhow;
use donor::{Allowance, DonorRule, EarliestFirst, Nobody, Turns};
use executive::Executive;
use flight::{Listing, fault_line, header, play};
use plan::Plan;
use records::read_plan;
use std::fmt::Display;
use std::fs::File;
use std::io::Read;
use std::process::ExitCode;
use std::{env, io};

const USAGE: &str = "usage:
  durashem [PLAN TRACE] [--rule RULE]   fly TRACE on the executive of PLAN, and list every tick
  durashem help                         show this

PLAN is a plan file, TRACE a trace; without them plan.bin and trace.bin in this folder are flown. At most 65536
bytes of each are read, and a file that cannot be read counts as one of no bytes.

RULE chooses who pays for stolen ticks:
  E         the earliest offer (this one, if none is named)
  N         nobody, ever
  T         in turn
  A:LIMIT   as E, but each thief at most LIMIT ticks in 14400, LIMIT from 0 to 65535

A line is: instant, runner, source, payer, the payer's deadline, what is left of its capacity. The source is o own,
r residual, s stolen, i idle, e empty; - is nobody. A fault ends the listing with its number, layer and byte.
";

/// The most that is read of a file.
const MOST_BYTES: u64 = 65_536;

// Not shared with `flights`, which reads packed letters: the variants and the arms below are all that both would have.
/// A donor rule, as it is named on the command line.
#[derive(Clone, Copy)]
enum RuleName {
    Earliest,
    Nobody,
    Turns,
    Allowance(u16),
}

// `fail`, `first_bytes`, `run_words` and `main` are much like the planner's, but a library for so few lines would be longer than they are.
/// Says what is wrong on standard error, and ends the program with status 1.
fn fail<T, W: Display + Drop>(rt: &HostRuntime, why: W) -> anyhow::Result<T> {
    eprintln!(rt; "{why}")?;
    Err(anyhow!("the flight was not flown to its end"))
}

/// The first bytes of a file, no more than are read of one.
fn first_bytes(rt: &HostRuntime, path: &str) -> io::Result<Vec<u8>> {
    let mut bytes = Vec::new(rt.alloc());
    File::open(rt, path)?
        .take(MOST_BYTES)
        .read_to_end(&mut bytes)?;
    Ok(bytes)
}

/// The first bytes of a file; none, if it cannot be read.
fn bytes_of(rt: &HostRuntime, path: &str) -> anyhow::Result<Vec<u8>> {
    match first_bytes(rt, path) {
        Ok(bytes) => Ok(bytes),
        Err(why) => {
            eprintln!(rt; "cannot read {path}, which counts as no bytes: {why}")?;
            Ok(Vec::new(rt.alloc()))
        }
    }
}

/// Flies a trace on the executive of a plan under a rule.
fn fly<R: DonorRule + Drop>(
    rt: &HostRuntime,
    plan: &Plan,
    trace: &[u8],
    rule: R,
) -> anyhow::Result<()> {
    let mut executive = Executive::new(plan, rule);
    let first = header(rt.alloc(), R::LETTER, executive.servers())?;
    print!(rt; "{first}")?;
    let mut listing = Listing::new(rt);
    let ended = play(&mut executive, trace, &mut listing);
    if !listing.flush() {
        return fail(rt, "the listing cannot be written");
    }
    if let Err(fault) = ended {
        let last = fault_line(rt.alloc(), &fault)?;
        print!(rt; "{last}")?;
        return fail(rt, fault.fault);
    }
    Ok(())
}

/// Flies the trace of one file on the plan of another.
fn fly_files(
    rt: &HostRuntime,
    plan_path: &str,
    trace_path: &str,
    rule: RuleName,
) -> anyhow::Result<()> {
    let plan_bytes = bytes_of(rt, plan_path)?;
    let mut plan = Plan::new();
    if let Err(fault) = read_plan(plan_bytes.as_slice(), &mut plan) {
        let line = fault_line(rt.alloc(), &fault)?;
        print!(rt; "{line}")?;
        return fail(rt, fault.fault);
    }
    let trace = bytes_of(rt, trace_path)?;
    // By a `match`, as each rule is another type: one that names its letter by a constant can be no `dyn`.
    match rule {
        RuleName::Earliest => fly(rt, &plan, trace.as_slice(), EarliestFirst),
        RuleName::Nobody => fly(rt, &plan, trace.as_slice(), Nobody),
        RuleName::Turns => fly(rt, &plan, trace.as_slice(), Turns::new()),
        RuleName::Allowance(limit) => fly(
            rt,
            &plan,
            trace.as_slice(),
            Allowance::new(limit, EarliestFirst),
        ),
    }
}

/// The rule of this name, if there is one.
fn rule_named(word: &str) -> Option<RuleName> {
    match word {
        "E" => Some(RuleName::Earliest),
        "N" => Some(RuleName::Nobody),
        "T" => Some(RuleName::Turns),
        _ => {
            let limit = word.strip_prefix("A:")?.parse::<u16>().ok()?;
            Some(RuleName::Allowance(limit))
        }
    }
}

fn usage(rt: &HostRuntime) -> anyhow::Result<()> {
    eprint!(rt; "{USAGE}")?;
    Err(anyhow!("the command line is not understood"))
}

/// Flies the files that the words name, or the two that are flown if none is named.
fn fly_words(rt: &HostRuntime, words: &[&str], rule: RuleName) -> anyhow::Result<()> {
    match words {
        [] => fly_files(rt, "plan.bin", "trace.bin", rule),
        [plan, trace] => fly_files(rt, plan, trace, rule),
        _ => usage(rt),
    }
}

/// Flies under the rule that is named, the files that the other words name.
fn fly_under(rt: &HostRuntime, name: &str, files: &[&str]) -> anyhow::Result<()> {
    let Some(rule) = rule_named(name) else {
        return usage(rt);
    };
    fly_words(rt, files, rule)
}

fn run(rt: &HostRuntime, words: &[&str]) -> anyhow::Result<()> {
    match words {
        ["help"] => {
            print!(rt; "{USAGE}")?;
            Ok(())
        }
        ["--rule", name, files @ ..] => fly_under(rt, name, files),
        [files @ .., "--rule", name] => fly_under(rt, name, files),
        files => fly_words(rt, files, RuleName::Earliest),
    }
}

/// Does what the command line asks for. Its first word is the program's own.
fn run_words(rt: &HostRuntime) -> anyhow::Result<()> {
    let words: Vec<String> = env::args(rt)?.skip(1).collect(rt.alloc())?;
    let words: Vec<&str> = words.iter().map(|word| word.as_str()).collect(rt.alloc())?;
    run(rt, words.as_slice())
}

/// Ends with status 1 after a failure. What is wrong with the command line, a file or what it holds has been said by then.
fn main(rt: HostRuntime) -> ExitCode {
    match run_words(&rt) {
        Ok(()) => ExitCode::SUCCESS,
        Err(_) => ExitCode::FAILURE,
    }
}
