// One turn of the listing of a table file that comes in parts: lists what stands in the input buffer as far as the
// output buffer has room, puts what ends the listing where it ends, and says what comes next.
// The lines are `listing_part`'s and `listing_text`'s, the buffer's bytes `intake`'s; to read and to write is `console`'s.
#![tactic(auto)]

ghost use Rattle.std.specs.Prelude.{◌≡◌, length};
ghost use Rattle.intake.specs.Holding.{Within};
ghost use Rattle.listing_turn.specs.Turns.{unended, closing, at_edge, next_of, end_put_if, begun_listing, held_listed, turn_made};

use bridge::Bridge;
use intake::{Held, Next, Told, Turned};
use quantity::Refusal;
use tablefile::Reading;

// Where a listing stands.
#[derive(Clone, Copy)]
pub struct Standing {
    pub bridge: Bridge,
    // The lines so far, and the bytes of their records, modulo 2^64.
    pub count: u64,
    pub bytes: u64,
    // What of the input stands in the buffer and is still to be listed.
    pub held: Held,
}

// Nothing was listed yet.
#[tactic(auto, unfolding(crate::specs::Turns::begun_listing))]
pub fn begin() -> Standing
    ensures { result ≡ begun_listing }
{
    Standing {
        bridge: bridge::fresh(),
        count: 0,
        bytes: 0,
        held: Held::nothing(),
    }
}

// ---- what comes next

// Where the listing has not ended: a line more, where it can be counted.
#[tactic(auto, unfolding(crate::specs::Turns::unended))]
fn unended_next(count: u64) -> Next
    ensures { result ≡ unended count }
{
    if count < listing_text::MOST_LINES {
        Next::GoesOn
    } else {
        Next::Fails
    }
}

// Where the listing ends: now, if its end has room behind so many bytes.
#[tactic(auto, unfolding(crate::specs::Turns::closing, crate::specs::Turns::unended, listing_text::specs::Places::may_end))]
fn closing_next(count: u64, at: usize, size: usize) -> Next
    ensures { result ≡ closing count at size }
{
    if count >= listing_text::MOST_LINES {
        return Next::Fails;
    }
    if text::has_room(size, at, listing_text::LINE_ROOM + listing_text::END_ROOM) {
        Next::Ends
    } else {
        Next::GoesOn
    }
}

// Where the bytes that are held end before a whole record.
#[tactic(auto, unfolding(crate::specs::Turns::at_edge))]
fn edge_next(told: Told, count: u64, at: usize, size: usize) -> Next
    ensures { result ≡ at_edge told count at size }
{
    match told {
        Told::More => Next::Reads,
        Told::Ended => closing_next(count, at, size),
        Told::Failed => Next::Fails,
    }
}

// By what the reader gave where the lines stopped.
#[tactic(auto, unfolding(crate::specs::Turns::next_of))]
fn next_of(reading: Reading, told: Told, count: u64, at: usize, size: usize) -> Next
    ensures { result ≡ next_of reading told count at size }
{
    match reading {
        Reading::Found { .. } => unended_next(count),
        Reading::NothingLeft => edge_next(told, count, at, size),
        Reading::Refused(Refusal::CutShort) => edge_next(told, count, at, size),
        Reading::Refused(_) => closing_next(count, at, size),
    }
}

// ---- the turn

// Puts what ends the listing at a place, where it ends.
#[tactic(auto, unfolding(crate::specs::Turns::end_put_if))]
fn put_end_if(output: &mut [u8], at: usize, count: u64, reading: Reading, next: Next) -> usize
    ensures { record { next = result; bytes = output.new } ≡ end_put_if next output.old at count reading }
{
    match next {
        Next::Ends => listing_text::put_end(output, at, count, reading),
        Next::GoesOn | Next::Reads | Next::Fails => at,
    }
}

// Lists what is held.
fn list_held(input: &mut [u8], output: &mut [u8], standing: Standing) -> Turned<Standing>
    requires { Within standing.held (length input.old) }
    ensures { record { turned = result; input = input.new; output = output.new } ≡ held_listed standing input.old output.old }
{
    let held = standing.held;
    let listed = listing_part::list_part(
        &input[held.place..held.filled],
        standing.bridge,
        standing.count,
        output,
    );
    let count = listed.count;
    let reading = listed.reading;
    let at = listed.written;
    let next = next_of(reading, held.told, count, at, output.len());
    let written = put_end_if(output, at, count, reading, next);
    let left = Held {
        place: held.place + listed.place,
        ..held
    };
    Turned {
        standing: Standing {
            bridge: listed.bridge,
            count,
            bytes: standing.bytes.wrapping_add(listed.place as u64),
            held: left.keep_for(input, next),
        },
        written,
        next,
    }
}

// Makes one turn. What says that it holds bytes which are not in the buffer cannot be listed: nothing changes.
pub fn turn(input: &mut [u8], output: &mut [u8], standing: Standing) -> Turned<Standing>
    ensures { record { turned = result; input = input.new; output = output.new } ≡ turn_made standing input.old output.old }
{
    if !standing.held.is_within(input.len()) {
        return Turned {
            standing,
            written: 0,
            next: Next::Fails,
        };
    }
    list_held(input, output, standing)
}
