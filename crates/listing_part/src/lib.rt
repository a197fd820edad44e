// What a record of the table file does to the tables, and the listing of a part of a file.
// Reading a record is `reader`'s, the calls are `bridge`'s, the text of a line is `listing_text`'s. Input and output live with
// the programs. The calls are made on the tables in place, so that no table is copied for a record.
#![tactic(auto)]

ghost use Rattle.std.specs.Prelude.{◌≡◌};
ghost use Rattle.bridge.specs.History.{reply, after_call};
ghost use Rattle.listing_part.specs.Records.{call_of};
ghost use Rattle.listing_part.specs.Parts.{part_listed};
ghost use Rattle.listing_part.specs.Steps.{reply_of, set_up_answer, frame_answer, next_step};

use bridge::Bridge;
use listing_text::Answered;
use quantity::{Bits, Refusal, Ticks};
use records::Answer;
use tablefile::{Reading, Record};

// What the listing does next: it ends with what the reader gave, or carries out a record; `next` is the place after it.
// No Result: neither step is a failure. Public for definitions of other crates.
#[derive(Clone, Copy)]
pub enum Step {
    Ends(Reading),
    Goes { record: Record, next: usize },
}

// The listing of a part of a file.
#[derive(Clone, Copy)]
pub struct Listed {
    // The tables after the records that have their lines.
    pub bridge: Bridge,
    // The lines so far.
    pub count: u64,
    // The place after those records, and what the reader gives there.
    pub place: usize,
    pub reading: Reading,
    // The bytes of the lines, which stand at the front of the lent part.
    pub written: usize,
}

// ---- what a record does, and what it shows

#[tactic(auto, unfolding(crate::specs::Steps::set_up_answer))]
fn set_up_answer(answer: Result<(), Refusal>) -> Answered
    ensures { result ≡ set_up_answer answer }
{
    Answered {
        number: calls::set_up_number(answer),
        time: None,
    }
}

#[tactic(auto, unfolding(crate::specs::Steps::frame_answer, crate::specs::Steps::shown_of))]
fn frame_answer(answer: Answer) -> Answered
    ensures { result ≡ frame_answer answer }
{
    let number = records::answer_number(answer);
    match answer {
        Answer::Released(time) | Answer::Discarded(time) => Answered {
            number,
            time: Some(time),
        },
        Answer::Refused(_) => Answered { number, time: None },
    }
}

// Goes on where a record is found, a line has room and its number fits.
fn next_step(reading: Reading, count: u64, room: usize) -> Step
    ensures { result ≡ next_step reading count room }
{
    match reading {
        Reading::Found { record, next } => {
            if room < listing_text::LINE_ROOM {
                return Step::Ends(reading);
            }
            if count >= listing_text::MOST_LINES {
                return Step::Ends(reading);
            }
            Step::Goes { record, next }
        }
        Reading::NothingLeft => Step::Ends(reading),
        Reading::Refused(_) => Step::Ends(reading),
    }
}

// Makes a record's call, and gives what is shown of its answer.
fn carry_out(bridge: &mut Bridge, given: Record) -> Answered
    ensures after { bridge.new ≡ after_call bridge.old (call_of given) }
    ensures replies { reply_of result ≡ reply bridge.old (call_of given) }
{
    match given {
        Record::Group {
            group,
            class,
            residence,
        } => set_up_answer(bridge.set_up_group(group, class, residence)),
        Record::GroupDefault { group, class } => {
            let residence = Ticks(tablefile::DEFAULT_RESIDENCE);
            set_up_answer(bridge.set_up_group(group, class, residence))
        }
        Record::Stream {
            stream,
            group,
            rate,
            burst,
        } => set_up_answer(bridge.set_up_stream(stream, group, rate, Bits(burst as u64))),
        Record::Frame {
            stream,
            octets,
            arrival,
        } => frame_answer(bridge.frame(stream, octets, arrival)),
    }
}

// ---- the listing

// Carries out the records of a part of a file, from its start on, and puts their lines at the front of `out`.
pub fn list_part(bytes: &[u8], mut bridge: Bridge, count: u64, out: &mut [u8]) -> Listed
    ensures { record { listed = result; out = out.new } ≡ part_listed bytes.now bridge count out.old }
{
    let mut number = count;
    let mut place: usize = 0;
    let mut written: usize = 0;
    loop {
        let reading = reader::read(bytes, place);
        let step = next_step(reading, number, out.len() - written);
        match step {
            Step::Ends(why) => {
                return Listed {
                    bridge,
                    count: number,
                    place,
                    reading: why,
                    written,
                };
            }
            Step::Goes { record, next } => {
                let answer = carry_out(&mut bridge, record);
                number += 1;
                written = listing_text::put_line(
                    out,
                    written,
                    number,
                    tablefile::letters(record),
                    answer,
                );
                place = next;
                continue;
            }
        }
    }
}
