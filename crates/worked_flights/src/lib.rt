//! Worked flights: small plans and traces with every number written out. Each is an equation between what the
//! definitions that the contracts of the other crates cite compute to, and the numbers or the listing that a reader can
//! follow by hand. They are named together in the contract of `shown`, so that the crate is proved only if all of them hold.
//!
//! - `SurveyFlight`: a full plan, its weights and its file, and a listing of eleven ticks
//! - `LateWaker`: a server that was robbed in part wakes shortly before its deadline, and another still gets its whole budget
//! - `IdleTime`: what a server has left after its job pays for idle time
//! - `TwoHalves`: of two servers alike, the one with the smaller number runs first
//! - `ThreeRulesAtOneTheft`: three donor rules choose differently at the same theft
//! - `OfferAtItsEdge`: the last instant at which a server is offered to a thief
//! - `Periods`: one that a plan takes, and two that it refuses
//! - `SmallestFiles`: the empty plan, no file at all, and what the calls answer where there is no server
//!
//! The first five are flown with jobs, the last three stand at the edges of what is offered, taken and read.
//! `specs/Flights.antt` has them all.
#![tactic(auto)]

ghost use Rattle.std.specs.Prelude.{◌≡◌};
ghost use Rattle.worked_flights.specs.Flights.{WorkedFlights};

/// How many flights are shown, and that each of them is as it is written.
pub fn shown() -> u8
    ensures count { result ≡ 8 }
    ensures flights { WorkedFlights }
{
    let with_jobs: u8 = 5;
    let edges: u8 = 3;
    with_jobs + edges
}
