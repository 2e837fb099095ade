// Donor rules side by side: the same offers shown to each rule over several ticks, and who pays.
#![tactic(auto)]

use donor::{Allowance, DonorRule, EarliestFirst, Nobody, Offer, Turns};
use richest::Richest;
use std::io;

const OFFERS: [Offer; 3] = [
    Offer {
        server: 0,
        deadline: 18,
        capacity: 2,
    },
    Offer {
        server: 1,
        deadline: 14,
        capacity: 3,
    },
    Offer {
        server: 4,
        deadline: 14,
        capacity: 9,
    },
];

const THIEF: u16 = 2;

const TICKS: u32 = 6;

/// The line of a rule: who pays in each tick, if anybody.
fn show<R: DonorRule + Drop>(rt: &HostRuntime, mut rule: R, words: &str) -> io::Result<()> {
    let letter = R::LETTER;
    print!(rt; "{letter}  ")?;
    for instant in 0..TICKS {
        step(rt, &mut rule, instant)?;
    }
    println!(rt; "  {words}")
}

/// One tick: the rule is asked, and told if somebody pays.
fn step<R: DonorRule>(rt: &HostRuntime, rule: &mut R, instant: u32) -> io::Result<()> {
    let Some(k) = rule.choose(instant, THIEF, &OFFERS) else {
        return print!(rt; "  -");
    };
    let Some(offer) = OFFERS.get(k) else {
        return print!(rt; "  ?");
    };
    let payer = offer.server;
    rule.charged(instant, THIEF, payer);
    print!(rt; "  {payer}")
}

fn main(rt: HostRuntime) -> io::Result<()> {
    println!(rt; "server {THIEF} is overloaded and may steal from")?;
    for offer in &OFFERS {
        let Offer {
            server,
            deadline,
            capacity,
        } = *offer;
        println!(rt; "  server {server}, due at {deadline}, with {capacity} ticks")?;
    }
    println!(rt; "who pays in ticks 0 to 5, by rule:")?;
    show(
        &rt,
        EarliestFirst,
        "the earliest deadline, then the smallest number",
    )?;
    show(&rt, Nobody, "nobody, ever")?;
    show(&rt, Turns::new(), "in turn")?;
    show(
        &rt,
        Allowance::new(4, Turns::new()),
        "in turn, at most 4 ticks a frame",
    )?;
    show(&rt, Richest, "the richest: a rule from outside the library")
}
