// The calls on a whole `Waiting`, by value: nothing waits, an entry enters, and the pick at a moment.
// They are thin over the calls in place of `classes`; what is promised of entering and picking stands here, too.
#![tactic(auto)]

ghost use Rattle.std.specs.Prelude.{◌≡◌};
ghost use Rattle.places.specs.Queue.{nothing};
ghost use Rattle.classes.specs.Calls.{enter_gives, pick_gives};

use places::{After, Entry, Picked, Waiting};
use quantity::{Refusal, Ticks};

// The places at the start: nothing waits. No `Default`: clauses and theorems name it, `nothing`.
pub fn empty() -> Waiting
    ensures { result ≡ nothing }
{
    Waiting {
        times: [0u64; 256],
        handles: [0u32; 256],
        bits: [0u64; 256],
        fills: [0u8; 8],
    }
}

// Enters an entry into a class.
pub fn enter(mut waiting: Waiting, class: u8, entry: Entry) -> After<Result<(), Refusal>>
    ensures { result ≡ enter_gives waiting class entry }
{
    let answer = classes::enter_in_place(&mut waiting, class, entry);
    After { answer, waiting }
}

// Picks at a moment.
pub fn pick(mut waiting: Waiting, moment: Ticks) -> After<Picked>
    ensures { result ≡ pick_gives waiting moment.0 }
{
    let answer = classes::pick_in_place(&mut waiting, moment);
    After { answer, waiting }
}
