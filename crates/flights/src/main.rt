// Flies the packed flights of the model, and prints for each its checksum: the model's own output must be the same.
#![tactic(auto)]

ghost use Rattle.std.specs.Prelude.{◌≡◌, min, length};

use anyhow::{Context, anyhow};
use donor::{Allowance, DonorRule, EarliestFirst, Nobody, Turns};
use executive::{Executive, TickAnswer};
use faults::{Fault, Placed};
use flight::{Listener, Page, TickCount, fault_line, header, play};
use plan::Plan;
use records::read_plan;
use std::{fmt, fs};

/// No more flights than this are flown.
const MOST_FLIGHTS: usize = 100_000;

/// The checksum of a listing: a 32-bit FNV-1a over its bytes, and how many ticks it has.
#[derive(Drop)]
struct Checksum {
    page: Page,
    value: u32,
    count: TickCount,
}

/// A checksum, after more text.
fn mixed(value: u32, text: &[u8]) -> u32 {
    text.iter().fold(value, |sum, byte| {
        (sum ^ *byte as u32).wrapping_mul(16_777_619)
    })
}

impl Checksum {
    fn new() -> Checksum
        ensures { result.count.ticks ≡ 0 }
    {
        Checksum {
            page: Page::new(),
            value: 2_166_136_261,
            count: TickCount { ticks: 0 },
        }
    }

    fn mix(&mut self, text: &[u8]) {
        self.value = mixed(self.value, text);
    }
}

/// It hears each tick by mixing its line in.
impl Listener for Checksum {
    ghost heard = { λ sum lines. sum.count.ticks ≡ min 4294967295 (length lines) };

    fn hear(&mut self, instant: u32, answer: TickAnswer) {
        self.page.clear();
        self.page.put_line(instant, answer);
        self.value = mixed(self.value, self.page.text());
        self.count.hear(instant, answer);
    }
}

// Not shared with `durashem`, which reads names of people: the variants and the arms below are all that both would have.
/// A donor rule, as a flight names it.
#[derive(Clone, Copy)]
enum RuleName {
    Earliest,
    Nobody,
    Turns,
    Allowance(u16),
}

impl RuleName {
    /// The rule of this letter, if there is one. The allowance has this limit.
    fn of(letter: u8, limit: u16) -> Option<RuleName> {
        match letter {
            b'E' => Some(RuleName::Earliest),
            b'N' => Some(RuleName::Nobody),
            b'T' => Some(RuleName::Turns),
            b'A' => Some(RuleName::Allowance(limit)),
            _ => None,
        }
    }
}

/// How the line of a flight begins: its seed, the letter of its rule, and the limit where the rule has one.
#[derive(Clone, Copy)]
struct Head {
    seed: u32,
    letter: char,
    limit: Option<u16>,
}

impl fmt::Display for Head {
    fn fmt<W: fmt::Write>(&self, f: &mut fmt::Formatter<W>) -> fmt::Result {
        let Head {
            seed,
            letter,
            limit,
        } = *self;
        match limit {
            Some(limit) => write!(f, "{seed} {letter}:{limit}"),
            None => write!(f, "{seed} {letter}"),
        }
    }
}

/// One flight, as it is packed. It has no rule if it names none that there is.
#[derive(Clone, Copy)]
struct Packed<'a> {
    seed: u32,
    rule: Option<RuleName>,
    plan: &'a [u8],
    trace: &'a [u8],
}

/// The number that the first four bytes make, and what follows them.
fn first_number(bytes: &[u8]) -> Option<(u32, &[u8])> {
    let (number, rest) = bytes.split_first_chunk::<4>()?;
    Some((u32::from_be_bytes(*number), rest))
}

/// The first flight that is packed here, if it is there whole, and what follows it: seed, rule, limit, the lengths of
/// plan file and trace, and then the two.
fn first_flight(bytes: &[u8]) -> Option<(Packed<'_>, &[u8])> {
    let (seed, rest) = first_number(bytes)?;
    let (letter, rest) = rest.split_first()?;
    let (limit, rest) = rest.split_first_chunk::<2>()?;
    let (plan_length, rest) = first_number(rest)?;
    let (trace_length, rest) = first_number(rest)?;
    let (plan, rest) = rest.split_at_checked(plan_length as usize)?;
    let (trace, rest) = rest.split_at_checked(trace_length as usize)?;
    let rule = RuleName::of(*letter, u16::from_be_bytes(*limit));
    let flight = Packed {
        seed,
        rule,
        plan,
        trace,
    };
    Some((flight, rest))
}

/// The line of a flight, up to the fault: its head, ticks, checksum.
fn show(rt: &HostRuntime, head: Head, sum: &Checksum) -> anyhow::Result<()> {
    let ticks = sum.count.ticks;
    let value = sum.value;
    print!(rt; "{head} {ticks} {value:08x} ")?;
    Ok(())
}

/// The line of a flight that a fault ends. The listing's line of the fault is in the checksum too.
fn show_fault<F: Fault>(
    rt: &HostRuntime,
    head: Head,
    mut sum: Checksum,
    ended: &Placed<F>,
) -> anyhow::Result<()> {
    let last = fault_line(rt.alloc(), ended)?;
    sum.mix(last.as_bytes());
    show(rt, head, &sum)?;
    let number = ended.fault.number();
    let layer = ended.fault.layer();
    let byte = ended.byte;
    println!(rt; "{number} {layer} {byte}")?;
    Ok(())
}

/// Flies the trace of a flight on its plan, under a rule that may have a limit.
fn fly<R: DonorRule + Drop>(
    rt: &HostRuntime,
    flight: Packed<'_>,
    limit: Option<u16>,
    rule: R,
) -> anyhow::Result<()> {
    let head = Head {
        seed: flight.seed,
        letter: R::LETTER,
        limit,
    };
    let mut sum = Checksum::new();
    let mut plan = Plan::new();
    if let Err(fault) = read_plan(flight.plan, &mut plan) {
        return show_fault(rt, head, sum, &fault);
    }
    let mut executive = Executive::new(&plan, rule);
    let first = header(rt.alloc(), R::LETTER, executive.servers())?;
    sum.mix(first.as_bytes());
    if let Err(fault) = play(&mut executive, flight.trace, &mut sum) {
        return show_fault(rt, head, sum, &fault);
    }
    show(rt, head, &sum)?;
    println!(rt; "-")?;
    Ok(())
}

/// Flies a flight under the rule that it names.
fn fly_packed(rt: &HostRuntime, flight: Packed<'_>) -> anyhow::Result<()> {
    let rule = flight.rule.context("a flight names no rule that there is")?;
    // By a `match`, as each rule is another type: one that names its letter by a constant can be no `dyn`.
    match rule {
        RuleName::Earliest => fly(rt, flight, None, EarliestFirst),
        RuleName::Nobody => fly(rt, flight, None, Nobody),
        RuleName::Turns => fly(rt, flight, None, Turns::new()),
        RuleName::Allowance(limit) => fly(
            rt,
            flight,
            Some(limit),
            Allowance::new(limit, EarliestFirst),
        ),
    }
}

fn main(rt: HostRuntime) -> anyhow::Result<()> {
    let bytes = fs::read(&rt, "flights.bin")?;
    let mut rest = bytes.as_slice();
    // A bound on the turns, and no index: every loop ends.
    for _ in 0..MOST_FLIGHTS {
        if rest.is_empty() {
            return Ok(());
        }
        let (flight, after) = first_flight(rest).context("the last flight is not there whole")?;
        fly_packed(&rt, flight)?;
        rest = after;
    }
    Err(anyhow!("there are more flights than are flown"))
}
