// What the calls answer, as plain numbers and a source.
ghost use Rattle.std.specs.Prelude.{◌≡◌};
ghost use Rattle.executive.specs.Calls.{runner_number, payer_number, source_of, who_runs};

use server::{Payment, Source, Turn};

/// What a tick answers: the runner and the payer, each a number or nobody, the source, then the payer's deadline and what
/// is left of the capacity charged.
pub type TickAnswer = (u16, u16, Source, u32, u16);

/// Nobody, as the number of a server: no server has it. A number and no `Option`: by a rule of the project the calls answer
/// plain numbers.
pub const NOBODY: u16 = 65_535;

/// The runner's number, or nobody.
pub fn runner_number(runner: Option<u16>) -> u16
    ensures { result ≡ runner_number runner }
{
    runner.unwrap_or(NOBODY)
}

/// The payer's number, or nobody.
pub fn payer_number(payment: Option<Payment>) -> u16
    ensures { result ≡ payer_number payment }
{
    payment.map_or(NOBODY, |payment| payment.payer)
}

/// The source, which is empty where nobody pays.
pub fn source_of(payment: Option<Payment>) -> Source
    ensures { result ≡ source_of payment }
{
    payment.map_or(Source::Empty, |payment| payment.source)
}

/// The runner, the payer and the source of a turn.
pub(crate) fn who_runs(turn: Turn) -> (u16, u16, Source)
    ensures { result ≡ who_runs turn.runner turn.payment }
{
    (
        runner_number(turn.runner),
        payer_number(turn.payment),
        source_of(turn.payment),
    )
}
