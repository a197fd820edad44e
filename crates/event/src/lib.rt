// What a run against a line does next: the stop, the next arrival, or the pick and its moment; and a stop's number.
// It is decided from a list of arrivals, the moment the line is free, the smallest waiting time and what is left of the
// budget and of the pick lists. Nothing is judged, entered or picked here.
#![tactic(auto)]

ghost use Rattle.std.specs.Prelude.{◌≡◌};
ghost use Rattle.event.specs.Next.{arrives_by, next_event, step_for, arrival_step, pick_step, stop_number};

use quantity::{Item, Refusal, Ticks};

// Why a run stopped. A refused run did nothing.
#[derive(Clone, Copy)]
pub enum Stop {
    // No arrival is left and nothing waits.
    Done,
    BudgetSpent,
    // The event is a pick after the last moment for one.
    TooLate,
    // The event is a pick and one of the pick lists is full.
    PicksFull,
    Refused(Refusal),
}

// What a run does next.
#[derive(Clone, Copy)]
pub enum Step {
    Ends(Stop),
    Arrival,
    // A pick at a moment.
    Pick(Ticks),
}

// ---- which event is next

// Whether an arrival is left, and its time is not after the moment.
fn arrives(arrivals: &[u64], next: usize, moment: u64) -> bool
    ensures { result ≡ arrives_by arrivals.now next moment }
{
    next < arrivals.len() && arrivals[next] <= moment
}

fn arrival_step(left: u64) -> Step
    ensures { result ≡ arrival_step left }
{
    if left > 0 {
        return Step::Arrival;
    }
    Step::Ends(Stop::BudgetSpent)
}

fn pick_step(moment: u64, left: u64, picks: usize, handles: usize, moments: usize) -> Step
    ensures { result ≡ pick_step left picks handles moments moment }
{
    if left < 1 {
        return Step::Ends(Stop::BudgetSpent);
    }
    if !quantity::in_range(Item::PickMoment, moment) {
        return Step::Ends(Stop::TooLate);
    }
    if picks >= handles {
        return Step::Ends(Stop::PicksFull);
    }
    if picks >= moments {
        return Step::Ends(Stop::PicksFull);
    }
    Step::Pick(Ticks(moment))
}

// What a run does next, with so many events left of its budget. The numbers come one by one, as `step_for` has them.
pub fn next_step(
    arrivals: &[u64],
    next: usize,
    free: Ticks,
    smallest: Option<Ticks>,
    left: u64,
    picks: usize,
    handles: usize,
    moments: usize,
) -> Step
    ensures { result ≡ step_for left picks handles moments (next_event arrivals.now next free.0 smallest) }
{
    match smallest {
        None => {
            if next < arrivals.len() {
                return arrival_step(left);
            }
            Step::Ends(Stop::Done)
        }
        Some(time) => {
            let moment = free.0.max(time.0);
            if arrives(arrivals, next, moment) {
                return arrival_step(left);
            }
            pick_step(moment, left, picks, handles, moments)
        }
    }
}

// ---- a stop

// Document 01's number of a stop. A call and no `From`: `u8::from(stop)` would not say which number.
pub fn stop_number(stop: Stop) -> u8
    ensures { result ≡ stop_number stop }
{
    match stop {
        Stop::Done => 0,
        Stop::BudgetSpent => 3,
        Stop::TooLate => 27,
        Stop::PicksFull => 4,
        Stop::Refused(why) => quantity::refusal_number(why),
    }
}
