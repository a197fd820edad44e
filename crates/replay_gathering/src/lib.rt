// A table file read into a bridge and lists of arrivals, part by part.
// Reading a record is `reader`'s, setting up is `bridge`'s, the run itself `line`'s. Input and output live with the
// programs.
#![tactic(auto)]

ghost use Rattle.std.specs.Prelude.{◌≡◌};
ghost use Rattle.replay_gathering.specs.Gathering.{has_room, task_of, task_for, called, gather_from, begun};
ghost use Rattle.replay_gathering.specs.Steps.{task_after};

use bridge::Bridge;
use quantity::{Bits, Rate, Refusal, Ticks};
use tablefile::{Reading, Record};

// Why a gathering ended.
#[derive(Clone, Copy)]
pub enum End {
    // No byte is left.
    NothingLeft,
    // The bytes at the place where it ended are no record.
    Unreadable(Refusal),
    // The record before that place is a set-up that was refused.
    NotSetUp(Refusal),
    // The frame at that place has no place left in the lists.
    ListsFull,
}

// A set-up that a record asks for. Public, with the type that follows, for definitions of other crates.
#[derive(Clone, Copy)]
pub enum Wanted {
    Group {
        group: u8,
        class: u8,
        residence: Ticks,
    },
    Stream {
        stream: u8,
        group: u8,
        rate: Rate,
        burst: u32,
    },
}

// What a record asks for, and the place after it.
#[derive(Clone, Copy)]
pub enum Task {
    Ends(End),
    Sets {
        wanted: Wanted,
        next: usize,
    },
    Frame {
        stream: u8,
        octets: u16,
        arrival: Ticks,
        next: usize,
    },
}

// What a gathering gives beside the lists.
#[derive(Clone, Copy)]
pub struct Gathered {
    pub why: End,
    // The place where it ended.
    pub at: usize,
    // How many records stand before that place.
    pub records: usize,
    // How many places of the lists are taken.
    pub count: usize,
    pub bridge: Bridge,
}

// Whether each of the three lists, of so many places, has a place for one arrival more.
fn has_room(count: usize, arrivals: usize, ids: usize, octets: usize) -> bool
    ensures { result ≡ has_room count arrivals ids octets }
{
    if count >= arrivals {
        return false;
    }
    if count >= ids {
        return false;
    }
    count < octets
}

// What a record asks for; a frame only where there is room for it.
fn task_of(given: Record, next: usize, room: bool) -> Task
    ensures { result ≡ task_of room given next }
{
    match given {
        Record::Group {
            group,
            class,
            residence,
        } => Task::Sets {
            wanted: Wanted::Group {
                group,
                class,
                residence,
            },
            next,
        },
        Record::GroupDefault { group, class } => Task::Sets {
            wanted: Wanted::Group {
                group,
                class,
                residence: Ticks(tablefile::DEFAULT_RESIDENCE),
            },
            next,
        },
        Record::Stream {
            stream,
            group,
            rate,
            burst,
        } => Task::Sets {
            wanted: Wanted::Stream {
                stream,
                group,
                rate,
                burst,
            },
            next,
        },
        Record::Frame {
            stream,
            octets,
            arrival,
        } => {
            if !room {
                return Task::Ends(End::ListsFull);
            }
            Task::Frame {
                stream,
                octets,
                arrival,
                next,
            }
        }
    }
}

// What is to be done where the reader gave this, after a record whose set-up, if it was one, had this answer.
fn next_task(reading: Reading, room: bool, answer: Result<(), Refusal>) -> Task
    ensures { result ≡ task_after answer (task_for room reading) }
{
    if let Err(why) = answer {
        return Task::Ends(End::NotSetUp(why));
    }
    match reading {
        Reading::Found { record, next } => task_of(record, next, room),
        Reading::NothingLeft => Task::Ends(End::NothingLeft),
        Reading::Refused(why) => Task::Ends(End::Unreadable(why)),
    }
}

// Makes the call that a set-up asks for.
fn set_up(bridge: &mut Bridge, wanted: Wanted) -> Result<(), Refusal>
    ensures { record { answer = result; bridge = bridge.new } ≡ called bridge.old wanted }
{
    match wanted {
        Wanted::Group {
            group,
            class,
            residence,
        } => bridge.set_up_group(group, class, residence),
        Wanted::Stream {
            stream,
            group,
            rate,
            burst,
        } => bridge.set_up_stream(stream, group, rate, Bits(burst as u64)),
    }
}

// Goes from record to record of the lent bytes: sets up groups and streams, and puts frames at the next places of the
// lists, from `count` on. Ends where no record stands, after a set-up that was refused, or at a frame that has no place.
// The three lists are lent one by one: where a struct lends them, a caller's proof does not close (as in `text`).
pub fn gather_part(
    bytes: &[u8],
    mut bridge: Bridge,
    arrivals: &mut [u64],
    ids: &mut [u8],
    octets: &mut [u16],
    mut count: usize,
) -> Gathered
    ensures { record { gathered = result; arrivals = arrivals.new; ids = ids.new; octets = octets.new }
        ≡ gather_from bytes.now (begun bridge arrivals.old ids.old octets.old count) }
{
    let mut at: usize = 0;
    let mut records: usize = 0;
    // What the set-up answered that was just made; else none was refused.
    let mut answer = Ok(());
    loop {
        let room = has_room(count, arrivals.len(), ids.len(), octets.len());
        let reading = reader::read(bytes, at);
        let task = next_task(reading, room, answer);
        match task {
            Task::Ends(why) => {
                return Gathered {
                    why,
                    at,
                    records,
                    count,
                    bridge,
                };
            }
            Task::Sets { wanted, next } => {
                answer = set_up(&mut bridge, wanted);
                at = next;
                records += 1;
                continue;
            }
            Task::Frame {
                stream,
                octets: length,
                arrival,
                next,
            } => {
                arrivals[count] = arrival.0;
                ids[count] = stream;
                octets[count] = length;
                count += 1;
                at = next;
                records += 1;
                continue;
            }
        }
    }
}
