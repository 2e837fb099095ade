// The late waker, tick by tick: a server that was robbed in part wakes just before its deadline, and the shutter's server
// gets its whole budget all the same. After each tick the accounts of all rows are shown.
#![tactic(auto)]

use donor::EarliestFirst;
use executive::{CallFault, Executive, NOBODY, TickAnswer};
use faults::Fault;
use plan::{Kind, Plan, PlanFault, Terms};
use server::{Account, Phase, Row, Source};
use std::io;

const TICKS: u32 = 21;

/// The downlink may be stolen from, the shutter and the logger are isolated.
fn flight() -> Result<Plan, PlanFault> {
    let mut plan = Plan::new();
    plan.add(Terms {
        kind: Kind::NonIsolated,
        budget: 8,
        period: 20,
    })?;
    plan.add(Terms {
        kind: Kind::Isolated,
        budget: 2,
        period: 4,
    })?;
    plan.add(Terms {
        kind: Kind::Isolated,
        budget: 1,
        period: 30,
    })?;
    Ok(plan)
}

/// The jobs: the logger's at 0, which finishes in tick 1, and one each for the downlink and the shutter at 17.
fn jobs(executive: &mut Executive<EarliestFirst>, instant: u32) -> Result<(), CallFault> {
    if instant == 0 {
        executive.arrive(2)?;
    }
    if instant == 17 {
        executive.arrive(0)?;
        executive.arrive(1)?;
    }
    Ok(())
}

// These words are this program's own, so they are no `Display` of sources and phases.
fn word_of(source: Source) -> &'static str {
    match source {
        Source::Own => "its own capacity",
        Source::Residual => "what it supplies",
        Source::Stolen => "stolen capacity",
        Source::Idle => "what it supplies, for idle time",
        Source::Empty => "nothing",
    }
}

fn phase_of(phase: Phase) -> &'static str {
    match phase {
        Phase::Resting => "resting",
        Phase::AtWork => "at work",
        Phase::Supplying => "supplying",
    }
}

fn show_tick(rt: &HostRuntime, instant: u32, answer: TickAnswer) -> io::Result<()> {
    let (runner, payer, source, deadline, left) = answer;
    let words = word_of(source);
    if payer == NOBODY {
        return println!(rt; "tick {instant}: nobody runs");
    }
    if runner == NOBODY {
        return println!(rt;
            "tick {instant}: nobody runs, server {payer} pays from {words}: {left} left, due at {deadline}"
        );
    }
    println!(rt;
        "tick {instant}: server {runner} runs, server {payer} pays from {words}: {left} left, due at {deadline}"
    )
}

fn show_row(rt: &HostRuntime, row: Row) -> io::Result<()> {
    let number = row.number;
    let phase = phase_of(row.phase);
    let Account {
        capacity,
        residual,
        deadline,
        jobs,
    } = row.account;
    println!(rt;
        "    server {number}  {phase:<9}  capacity {capacity}  residual {residual}  deadline {deadline}  jobs {jobs}"
    )
}

fn show_rows(rt: &HostRuntime, executive: &Executive<EarliestFirst>) -> io::Result<()> {
    for row in executive.rows() {
        show_row(rt, *row)?;
    }
    Ok(())
}

fn show_fault(rt: &HostRuntime, fault: CallFault) -> io::Result<()> {
    let number = fault.number();
    println!(rt; "refused with {number}: {fault}")
}

/// One instant: the jobs that come, and the tick.
fn pass(
    rt: &HostRuntime,
    executive: &mut Executive<EarliestFirst>,
    instant: u32,
) -> io::Result<()> {
    if let Err(fault) = jobs(executive, instant) {
        return show_fault(rt, fault);
    }
    match executive.tick(instant == 1) {
        Ok(answer) => show_tick(rt, instant, answer)?,
        Err(fault) => show_fault(rt, fault)?,
    }
    show_rows(rt, executive)
}

fn main(rt: HostRuntime) -> io::Result<()> {
    let plan = match flight() {
        Ok(plan) => plan,
        Err(fault) => return println!(rt; "{fault}"),
    };
    println!(rt; "server 0: the downlink, not isolated, 8 ticks in 20")?;
    println!(rt; "server 1: the shutter, isolated, 2 ticks in 4")?;
    println!(rt; "server 2: the logger, isolated, 1 tick in 30")?;
    println!(rt; "the logger has a job at 0, the downlink and the shutter at 17")?;
    let mut executive = Executive::new(&plan, EarliestFirst);
    for instant in 0..TICKS {
        pass(&rt, &mut executive, instant)?;
    }
    Ok(())
}
