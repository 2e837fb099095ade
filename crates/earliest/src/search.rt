// Finding the earliest, from the first record to the last.
ghost use Rattle.std.specs.Prelude.{◌≡◌, ◌<◌, Bool, length, Some, IfSome};
ghost use Rattle.earliest.specs.Earliest.{sooner, against, Tells, earliest_of, IsEarliest};

use crate::contender::Contender;

/// The earliest record so far: its position, deadline and number.
#[derive(Clone, Copy)]
struct Best {
    position: usize,
    deadline: u32,
    number: u16,
}

/// The position of the earliest record that takes part, by the mark that it gives for what is asked: the one with the smallest
/// deadline, then the smallest number. Nobody, where none takes part.
pub fn earliest<C: Contender>(items: &[C], ask: C::Ask) -> Option<usize>
    ensures inside { IfSome result (λ k. k < length items.now) }
    ensures value { result ≡ earliest_of C.deadline C.number (C.takes ask) items.now }
    ensures earliest { IsEarliest C.deadline C.number (C.takes ask) items.now result }
{
    earliest_where(items, |item| item.takes_part(ask))
}

/// The same, where a closure says who takes part, whatever the records' own mark. The closure must be one that may always be
/// called. Its answer is promised for each function that tells what the closure answers; where none is known, only that a
/// position is one of the records.
pub fn earliest_where<C: Contender, F: Fn(&C) -> bool>(items: &[C], takes_part: F) -> Option<usize>
    requires { F.IsAlwaysCallable takes_part }
    ensures inside { IfSome result (λ k. k < length items.now) }
    ensures value { (takes : C → Bool) → Tells F.Fn takes_part takes → result ≡ earliest_of C.deadline C.number takes items.now }
    ensures earliest { (takes : C → Bool) → Tells F.Fn takes_part takes → IsEarliest C.deadline C.number takes items.now result }
{
    // The loop is the fold of the definition, one step a turn; by `filter` and `min_by_key` the answer would need a definition of its own.
    let mut best: Option<Best> = None;
    for (position, item) in items.iter().enumerate() {
        if takes_part(item) {
            best = Some(earlier(best, position, item));
        }
    }
    best.map(|best| best.position)
}

// The earlier of the best so far and one more record; of two alike, the first.
fn earlier<C: Contender>(best: Option<Best>, position: usize, item: &C) -> Best
    ensures { Some result ≡ against best (record { position = position; deadline = C.deadline item.now; number = C.number item.now }) }
{
    let found = Best {
        position,
        deadline: item.deadline(),
        number: item.number(),
    };
    match best {
        Some(best) if !is_sooner(found, best) => best,
        _ => found,
    }
}

fn is_sooner(new: Best, old: Best) -> bool
    ensures { result ≡ sooner new old }
{
    (new.deadline, new.number) < (old.deadline, old.number)
}
