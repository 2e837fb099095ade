// Reading a written plan: a row to a line, added in order to a plan with no rows.
ghost use Rattle.std.specs.Prelude.{◌≡◌, Some};
ghost use Rattle.std.specs.Option.{option_copied};
ghost use Rattle.plan_text.specs.Words.{words_of};
ghost use Rattle.plan_text.specs.Reading.{terms_of, terms_of_taken, rows_after_line, plan_of_text, answer_of, rows_or};
ghost use Rattle.plan.specs.Plan.{rows_of};

use crate::fault::{LineFault, TextFault};
use crate::words::{Words, kind, number, without_comment};
use plan::{Plan, Terms};

/// The terms that the first four words of a line stand for, as far as it has so many.
fn terms_of(
    first: &[u8],
    second: Option<&[u8]>,
    third: Option<&[u8]>,
    fourth: Option<&[u8]>,
) -> Result<Option<Terms>, LineFault>
    ensures { result ≡ terms_of_taken (Some first.now) (option_copied second.entry) (option_copied third.entry) (option_copied fourth.entry) }
{
    match (second, third, fourth) {
        (Some(second), Some(third), None) => Ok(Some(Terms {
            kind: kind(first).ok_or(LineFault::Kind)?,
            budget: number(second).ok_or(LineFault::Number)?,
            period: number(third).ok_or(LineFault::Number)?,
        })),
        _ => Err(LineFault::Words),
    }
}

/// The terms that a line stands for: none if it has no words.
fn parse_line(line: &[u8]) -> Result<Option<Terms>, LineFault>
    ensures { result ≡ terms_of (words_of line.now) }
{
    let mut words = Words::of(without_comment(line));
    let Some(first) = words.take_word() else {
        return Ok(None);
    };
    terms_of(
        first,
        words.take_word(),
        words.take_word(),
        words.take_word(),
    )
}

/// Adds the row that a line stands for, if it stands for one. On a fault the plan is as it was.
fn add_line(plan: &mut Plan, line: &[u8]) -> Result<(), LineFault>
    ensures answer { result ≡ answer_of (rows_after_line (rows_of plan.old) line.now) }
    ensures rows { rows_of plan.new ≡ rows_or (rows_after_line (rows_of plan.old) line.now) (rows_of plan.old) }
{
    if let Some(terms) = parse_line(line)? {
        plan.add(terms)?;
    }
    Ok(())
}

/// Replaces the plan by the one that the text stands for: a row to a line, which is a kind, a budget
/// and a period, with blank lines and comments between them. On a fault the plan is as it was.
pub fn parse_plan(text: &[u8], plan: &mut Plan) -> Result<(), TextFault>
    ensures answer { result ≡ answer_of (plan_of_text text.now) }
    ensures rows { rows_of plan.new ≡ rows_or (plan_of_text text.now) (rows_of plan.old) }
{
    let mut read = Plan::new();
    for (before, line) in text.split(|byte| *byte == b'\n').enumerate() {
        add_line(&mut read, line).map_err(|fault| TextFault {
            line: before + 1,
            fault,
        })?;
    }
    *plan = read;
    Ok(())
}
