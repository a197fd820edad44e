// Which entry goes first: the one of a class, and the smallest time at which any entry waits.
// The queues are looked at only; whether that entry is due is the caller's business.
#![tactic(auto)]

ghost use Rattle.std.specs.Prelude.{◌≡◌, ◌*◌, ◌-◌, ◌≤◌};
ghost use Rattle.places.specs.Queue.{classes, places, count_of};
ghost use Rattle.firsts.specs.Firsts.{first_of, smaller, smallest_of};

use places::Waiting;
use quantity::Ticks;

// The entry of a class that goes first: its place in the class, counted from 0 in order of entering, and its time.
#[derive(Clone, Copy)]
pub struct First {
    pub place: usize,
    pub time: Ticks,
}

// How many entries of a class count: its fill; none where there is no such class, or the fill is beyond its places.
fn count(fills: &[u8; 8], class: u8) -> usize
    ensures { (result ≡ count_of fills.now class) × ((result ≤ places) × (result ≤ (classes - class) * places)) }
{
    if class > places::LAST_CLASS {
        return 0;
    }
    let n = fills[class as usize];
    if n > places::FULL {
        return 0;
    }
    n as usize
}

// The entry of a class that goes first, if it has one: the smallest time, and among equal times the one entered first.
pub fn first_least(waiting: &Waiting, class: u8) -> Option<First>
    ensures { result ≡ first_of waiting.now.times waiting.now.fills class }
{
    let n = count(&waiting.fills, class);
    if n < 1 {
        return None;
    }
    let base = class as usize * places::PLACES;
    let mut first = First {
        place: 0,
        time: Ticks(waiting.times[base]),
    };
    for place in 1..n {
        let time = Ticks(waiting.times[base + place]);
        if time.0 < first.time.0 {
            first = First { place, time };
        }
    }
    Some(first)
}

// The smaller of a time and a class's smallest, where there are such.
#[tactic(auto, unfolding(crate::specs::Firsts::smaller))]
fn smaller_of(least: Option<Ticks>, first: Option<First>) -> Option<Ticks>
    ensures { result ≡ smaller least first }
{
    match (least, first) {
        (_, None) => least,
        (None, Some(f)) => Some(f.time),
        (Some(s), Some(f)) => Some(Ticks(s.0.min(f.time.0))),
    }
}

// The smallest time at which any entry waits, if one does.
pub fn smallest_time(waiting: &Waiting) -> Option<Ticks>
    ensures { result ≡ smallest_of waiting.now.times waiting.now.fills }
{
    let mut least = None;
    for class in 0..=places::LAST_CLASS {
        least = smaller_of(least, first_least(waiting, class));
    }
    least
}
