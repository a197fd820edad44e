// The run of a list of arrivals against one line, event by event: an arrival is judged and enters its class, or the
// entry that goes first leaves for the line. Which is next is `event`'s, judging `calls`', putting and taking out
// `places`', the first of a class `firsts`'. Tables and queues are changed in place, and the first of each class is kept
// beside the queues: no event copies a table.
#![tactic(auto)]

ghost use Rattle.std.specs.Prelude.{◌≡◌, true, ◌<◌, ◌≤◌, length};
ghost use Rattle.quantity.specs.Ranges.{in_range, most_of};
ghost use Rattle.records.specs.ExactTime.{bit_time};
ghost use Rattle.places.specs.Queue.{classes, Shaped};
ghost use Rattle.classes.specs.Soundness.{all_sound};
ghost use Rattle.classes.specs.Calls.{enter_gives, due_of, pick_gives};
ghost use Rattle.firsts.specs.Firsts.{first_of, smallest_of};
ghost use Rattle.line.specs.Run.{sending_ticks, handed, settled, lists_fit, line_fits, start_of, begun, run_for, run_gives};
ghost use Rattle.line.specs.Firsts.{never, noted, Noted, Keeps, Enterable};

use bridge::Bridge;
use classes::Due;
use event::{Step, Stop};
use firsts::First;
use places::{Entry, LAST_CLASS, Picked, Waiting};
use quantity::{Bits, Item, ORDINARY_OVERHEAD, Rate, Refusal, TICKS_PER_SECOND, Ticks};
use records::{Answer, Group};

// Later than the time of any entry.
const NEVER: u64 = u64::MAX;

// What is noted of a class in which nothing waits.
const NO_FIRST: First = First {
    place: 0,
    time: Ticks(NEVER),
};

// What is handed to the queue. Public for definitions of other crates.
#[derive(Clone, Copy)]
pub struct Handed {
    pub class: u8,
    pub entry: Entry,
}

#[derive(Clone, Copy)]
pub struct Ran {
    pub stop: Stop,
    // The place of the next arrival.
    pub next: usize,
    // The moment the line is free.
    pub free: Ticks,
    pub events: u64,
    pub picks: usize,
    pub bridge: Bridge,
    pub waiting: Waiting,
}

// ---- the queues of a run

// Sound waiting places, with the first of each class beside them, so that only a class that an entry has left is
// searched again.
#[derive(Drop)]
struct Queues {
    waiting: Waiting,
    firsts: [First; 8],
    ghost keeps: { Keeps waiting firsts },
}

// What is noted of a class: its first, or a time later than that of any entry.
fn noted(waiting: &Waiting, class: u8) -> First
    ensures { result ≡ noted (first_of waiting.now.times waiting.now.fills class) }
{
    firsts::first_least(waiting, class).unwrap_or(NO_FIRST)
}

// What is noted of all classes.
fn all_noted(waiting: &Waiting) -> [First; 8]
    ensures { Noted waiting.now.times waiting.now.fills result classes }
{
    let mut firsts = [NO_FIRST; 8];
    for class in 0..=LAST_CLASS {
        firsts[class as usize] = noted(waiting, class);
    }
    firsts
}

impl Queues {
    // The queues of a run, from waiting places that are sound.
    fn new(waiting: Waiting) -> Queues
        requires { all_sound waiting.times waiting.bits waiting.fills ≡ true }
        ensures { result.waiting ≡ waiting }
    {
        let firsts = all_noted(&waiting);
        Queues { waiting, firsts }
    }

    // The smallest waiting time, if an entry waits.
    fn soonest(&self) -> Option<Ticks>
        ensures { result ≡ smallest_of self.now.waiting.times self.now.waiting.fills }
    {
        let mut soon = NEVER;
        for first in &self.firsts {
            soon = soon.min(first.time.0);
        }
        if soon == NEVER {
            return None;
        }
        Some(Ticks(soon))
    }

    // The highest class that has an entry whose time is not after the moment, and which of its entries goes first.
    fn due(&self, moment: u64) -> Option<Due>
        requires { moment < never }
        ensures { result ≡ due_of self.now.waiting.times self.now.waiting.fills moment }
    {
        for class in (0..=LAST_CLASS).rev() {
            let first = self.firsts[class as usize];
            if first.time.0 <= moment {
                return Some(Due {
                    class,
                    place: first.place,
                });
            }
        }
        None
    }

    // Enters what may enter.
    fn enqueue(&mut self, handed_on: Handed) -> Result<(), Refusal>
        requires { Enterable handed_on }
        ensures { record { answer = result; waiting = self.new.waiting } ≡ enter_gives self.old.waiting handed_on.class handed_on.entry }
    {
        let class = handed_on.class;
        let entry = handed_on.entry;
        let c = class as usize;
        let place = self.waiting.fills[c] as usize;
        if !self.waiting.put(class, entry) {
            return Err(Refusal::ClassFull);
        }
        if entry.time.0 < self.firsts[c].time.0 {
            self.firsts[c] = First {
                place,
                time: entry.time,
            };
        }
        Ok(())
    }

    // Picks at a moment.
    fn dequeue(&mut self, moment: Ticks) -> Picked
        requires { moment.0 < never }
        ensures { record { answer = result; waiting = self.new.waiting } ≡ pick_gives self.old.waiting moment.0 }
    {
        let Some(due) = self.due(moment.0) else {
            return Picked::Nothing;
        };
        let left = self.waiting.take_out(due.class, due.place);
        self.firsts[due.class as usize] = noted(&self.waiting, due.class);
        // As `classes::pick_in_place` makes it: two arms, and no plainer as a call of another room.
        match left {
            Some(entry) => Picked::Leaves {
                class: due.class,
                entry,
            },
            None => Picked::Nothing,
        }
    }

    // Enters a judged frame if it is released, and gives the number for its place in the list of answers.
    fn settle(&mut self, answer: Answer, group: Group, place: u32, octets: u16) -> u8
        requires { (t : Ticks) → answer ≡ Answer.Released t → Enterable (handed group place octets t.0) }
        ensures { record { number = result; waiting = self.new.waiting } ≡ settled self.old.waiting group place octets answer }
    {
        match answer {
            Answer::Released(time) => match self.enqueue(hand_on(group, place, octets, time)) {
                Ok(()) => 0,
                Err(why) => quantity::refusal_number(why),
            },
            Answer::Discarded(_) => records::answer_number(answer),
            Answer::Refused(_) => records::answer_number(answer),
        }
    }
}

// What is handed to the queue for a frame released at a time: its place in the list is its handle.
fn hand_on(group: Group, place: u32, octets: u16, time: Ticks) -> Handed
    ensures { result ≡ handed group place octets time.0 }
{
    let class = group.class;
    Handed {
        class,
        entry: Entry {
            handle: place,
            time,
            bits: quantity::charge(octets, ORDINARY_OVERHEAD),
        },
    }
}

// ---- the line

// How long the line is busy with so many bits, taken up to a whole tick.
fn sending_ticks(bits: Bits, rate: Rate) -> u64
    requires { (bits.0 ≤ most_of Item.Charge) × (in_range Item.LineRate rate.0 ≡ true) }
    ensures { (result ≡ sending_ticks bits.0 rate.0) × (result ≤ bit_time (most_of Item.Charge)) }
{
    (bits.0 * TICKS_PER_SECOND + (rate.0 - 1)) / rate.0
}

// ---- the run

// Whether a run's lists fit each other and the starting place.
fn lists_fit(arrivals: &[u64], ids: &[u8], octets: &[u16], start: usize, answers: &[u8]) -> bool
    ensures { result ≡ lists_fit (length arrivals.now) (length ids.now) (length octets.now) start (length answers.now) }
{
    let n = arrivals.len();
    if ids.len() != n {
        return false;
    }
    if octets.len() != n {
        return false;
    }
    if !quantity::in_range(Item::ListPlaces, n as u64) {
        return false;
    }
    if start > n {
        return false;
    }
    n <= answers.len()
}

// Whether the line's rate and the moment it is free are in range.
fn line_fits(rate: Rate, free: Ticks) -> bool
    ensures { result ≡ line_fits rate.0 free.0 }
{
    quantity::in_range(Item::LineRate, rate.0) && quantity::in_range(Item::LineFree, free.0)
}

// What the tests of a run's lists, its line and its queues say.
fn start_of(lists: bool, line: bool, waiting: &Waiting) -> Result<(), Refusal>
    ensures { result ≡ start_of lists line (all_sound waiting.now.times waiting.now.bits waiting.now.fills) }
{
    if !lists {
        return Err(Refusal::ListsUnfit);
    }
    if !line {
        return Err(Refusal::LineUnfit);
    }
    if !classes::all_sound(waiting) {
        return Err(Refusal::Unsound);
    }
    Ok(())
}

// A run that did nothing.
fn refused(why: Refusal, bridge: Bridge, waiting: Waiting, start: usize, free: Ticks) -> Ran
    ensures { result ≡ record { stop = Stop.Refused why; next = start; free = free; events = 0; picks = 0; bridge = bridge; waiting = waiting } }
{
    Ran {
        stop: Stop::Refused(why),
        next: start,
        free,
        events: 0,
        picks: 0,
        bridge,
        waiting,
    }
}

// The events of a run whose arguments fit and whose queues are sound.
fn run_events(
    mut bridge: Bridge,
    waiting: Waiting,
    arrivals: &[u64],
    ids: &[u8],
    octets: &[u16],
    start: usize,
    rate: Rate,
    free: Ticks,
    budget: u64,
    answers: &mut [u8],
    picked: &mut [u32],
    moments: &mut [u64],
) -> Ran
    requires { (lists_fit (length arrivals.now) (length ids.now) (length octets.now) start (length answers.old) ≡ true)
        × ((line_fits rate.0 free.0 ≡ true) × (all_sound waiting.times waiting.bits waiting.fills ≡ true)) }
    ensures { record { ran = result; answers = answers.new; picked = picked.new; moments = moments.new }
        ≡ run_for (record { arrivals = arrivals.entry.now; ids = ids.now; octets = octets.now; rate = rate.0 }) budget
        (begun bridge waiting start free.0 answers.old picked.old moments.old) }
{
    let mut queues = Queues::new(waiting);
    let mut next = start;
    let mut free_at = free.0;
    let mut events: u64 = 0;
    let mut picks: usize = 0;
    loop {
        let step = event::next_step(
            arrivals,
            next,
            Ticks(free_at),
            queues.soonest(),
            budget - events,
            picks,
            picked.len(),
            moments.len(),
        );
        match step {
            Step::Ends(stop) => {
                return Ran {
                    stop,
                    next,
                    free: Ticks(free_at),
                    events,
                    picks,
                    bridge,
                    waiting: queues.waiting,
                };
            }
            Step::Arrival => {
                let id = ids[next];
                let at = quantity::place_of(Item::StreamId, id);
                let stream = bridge.streams[at];
                let of = quantity::place_of(Item::GroupId, stream.group);
                let group = bridge.groups[of];
                let length = octets[next];
                let arrival = arrivals[next];
                let judged = calls::judge_at(id, stream, group, length, Ticks(arrival));
                bridge.streams[at] = judged.stream;
                bridge.groups[of] = judged.group;
                answers[next] = queues.settle(judged.answer, group, next as u32, length);
                next += 1;
                events += 1;
            }
            Step::Pick(moment) => {
                let Picked::Leaves { entry, .. } = queues.dequeue(moment) else {
                    unreachable!()
                };
                picked[picks] = entry.handle;
                moments[picks] = moment.0;
                picks += 1;
                free_at = moment.0 + sending_ticks(entry.bits, rate);
                events += 1;
            }
        }
    }
}

// Runs a list of arrivals, from a starting place on, against a line, for at most so many events.
// The lists are lent one by one: document 01 names them so, and refusal 28 speaks of their lengths.
pub fn run(
    bridge: Bridge,
    waiting: Waiting,
    arrivals: &[u64],
    ids: &[u8],
    octets: &[u16],
    start: usize,
    rate: Rate,
    free: Ticks,
    budget: u64,
    answers: &mut [u8],
    picked: &mut [u32],
    moments: &mut [u64],
) -> Ran
    ensures { record { ran = result; answers = answers.new; picked = picked.new; moments = moments.new }
        ≡ run_gives (record { arrivals = arrivals.entry.now; ids = ids.now; octets = octets.now; rate = rate.0 }) budget
        (begun bridge waiting start free.0 answers.old picked.old moments.old) }
{
    let lists = lists_fit(arrivals, ids, octets, start, answers);
    let line = line_fits(rate, free);
    match start_of(lists, line, &waiting) {
        Err(why) => refused(why, bridge, waiting, start, free),
        Ok(()) => run_events(
            bridge, waiting, arrivals, ids, octets, start, rate, free, budget, answers, picked,
            moments,
        ),
    }
}
