// The records of a group and of a stream: what they hold, and what becomes of a frame by them. Their set-up is
// `setup`'s, how a frame is judged by a record `shaper`'s; tables of records are `bridge`'s.
#![tactic(auto)]

mod sound;

ghost use Rattle.std.specs.Prelude.{◌≡◌};
ghost use Rattle.records.specs.Numbers.{is_set_up, answer_number};

use quantity::{Bits, Rate, Refusal, Ticks, refusal_number};
pub use sound::sound_group;

// An exact time, of either sign, of a stream of rate r: whole ticks, rounded towards minus infinity, and a remainder
// below r, counted in r-ths of a tick.
#[derive(Clone, Copy)]
pub struct Moment {
    pub ticks: i64,
    pub part: u64,
}

#[derive(Clone, Copy)]
pub struct Group {
    // Whether the group is set up. A flag and no Option: `sound_group`, `group_placed` and C's record speak of it field by
    // field.
    pub used: bool,
    pub class: u8,
    // The residence limit M.
    pub residence: Ticks,
    // The group time G.
    pub time: Ticks,
    // The last arrival.
    pub last: Ticks,
    pub discards: u32,
}

// What decides how soon a stream may send again. A stream that is not set up is `Unset`. No Option of a bucket: the
// kinds of regulator that docs/REQUESTS.md announces are to stand beside it.
#[derive(Clone, Copy)]
pub enum Regulator {
    Unset,
    // A bucket of so many bits, and the bucket empty time E.
    Bucket { burst: Bits, empty: Moment },
}

#[derive(Clone, Copy)]
pub struct Stream {
    pub group: u8,
    pub rate: Rate,
    pub regulator: Regulator,
}

// What becomes of a frame, with its eligibility time T. No Result: a discarded frame is judged too, and has its T.
#[derive(Clone, Copy)]
pub enum Answer {
    Released(Ticks),
    Discarded(Ticks),
    Refused(Refusal),
}

// An answer, and the stream and the group that it is about, as they stand after it. Beside `calls::Placed`, `bridge::Called`
// and `places::After`, since theorems speak of what stands after an answer by its name.
#[derive(Clone, Copy)]
pub struct WithRecords<A> {
    pub answer: A,
    pub stream: Stream,
    pub group: Group,
}

// What becomes of a frame, with the records after it.
pub type Judged = WithRecords<Answer>;

impl WithRecords<Answer> {
    // A refused frame: both records stay.
    pub fn refused(stream: Stream, group: Group, why: Refusal) -> Judged
        ensures { result ≡ record { answer = Answer.Refused why; stream = stream; group = group } }
    {
        WithRecords {
            answer: Answer::Refused(why),
            stream,
            group,
        }
    }
}

// Whether a stream is set up.
pub fn is_set_up(regulator: Regulator) -> bool
    ensures { result ≡ is_set_up regulator }
{
    // `matches!` would say it shorter, and costs: with it a frame in place takes 236 instructions, and so 213.
    if let Regulator::Unset = regulator {
        false
    } else {
        true
    }
}

// Document 01's number of an answer. A call and no `From`: `u8::from(answer)` would not say which number.
pub fn answer_number(answer: Answer) -> u8
    ensures { result ≡ answer_number answer }
{
    match answer {
        Answer::Released(_) => 0,
        Answer::Discarded(_) => 1,
        Answer::Refused(why) => refusal_number(why),
    }
}
