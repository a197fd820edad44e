// The text of the listing in lent bytes: the line of a record, and what ends a listing.
// Decimal numbers are `text`'s; which answer a line shows is `listing_part`'s. Bytes and place go one by one, and what is put
// is no `Display`: see `text`.
#![tactic(auto)]

ghost use Rattle.std.specs.Prelude.{◌≡◌, [], ◌∷◌, ◌++◌, ◌+◌, ◌≤◌, ◌<◌, length, get_or};
ghost use Rattle.quantity.specs.Numbers.{number_of};
ghost use Rattle.text.specs.Decimal.{decimal};
ghost use Rattle.listing_text.specs.Lines.{space, newline, values_of, column, end_line, ending};
ghost use Rattle.listing_text.specs.Places.{line_room, end_room, most_lines, line_put, end_put};
ghost use Rattle.listing_text.specs.Steps.{most_digits, number_room, head_room, tail_room, Put};

use quantity::{Refusal, Ticks};
use tablefile::Reading;

// No line is longer: 20 digits, a space, two letters, a space, three digits, a space, 20 digits, and the line's end.
pub const LINE_ROOM: usize = 49;

// No end line is longer: `end`, a space, 20 digits, and the line's end.
pub const END_ROOM: usize = 25;

// The lines are counted up to this one.
pub const MOST_LINES: u64 = u64::MAX;

// What a line shows of a call: document 01's number, and T where there is one.
#[derive(Clone, Copy)]
pub struct Answered {
    pub number: u8,
    pub time: Option<Ticks>,
}

// ---- a line

// The number of a line and its two letters, with the spaces after them.
fn put_head(out: &mut [u8], at: usize, number: u64, letters: [u8; 2]) -> usize
    requires { at + head_room ≤ length out.old }
    ensures { Put out.old at (decimal number ++ (space ∷ get_or letters 0 0 ∷ get_or letters 1 0 ∷ space ∷ [])) result out.new }
{
    let after = text::put_decimal(out, at, number);
    let end = after + 4;
    out[after..end].copy_from_slice(&[b' ', letters[0], letters[1], b' ']);
    end
}

// The last column.
fn put_shown(out: &mut [u8], at: usize, time: Option<Ticks>) -> usize
    requires { at + most_digits ≤ length out.old }
    ensures { Put out.old at (column (values_of time)) result out.new }
{
    match time {
        Some(ticks) => text::put_decimal(out, at, ticks.0),
        None => {
            out[at] = b'-';
            at + 1
        }
    }
}

// The number returned. Most are of one digit, which needs no count of digits.
fn put_number(out: &mut [u8], at: usize, number: u8) -> usize
    requires { at + number_room ≤ length out.old }
    ensures { Put out.old at (decimal number) result out.new }
{
    if number < 10 {
        out[at] = b'0' + number;
        return at + 1;
    }
    text::put_decimal(out, at, number as u64)
}

// The number returned and the last column, to the line's end.
fn put_tail(out: &mut [u8], at: usize, number: u8, time: Option<Ticks>) -> usize
    requires { at + tail_room ≤ length out.old }
    ensures { Put out.old at (decimal number ++ (space ∷ (column (values_of time) ++ (newline ∷ [])))) result out.new }
{
    let after = put_number(out, at, number);
    out[after] = b' ';
    let last = put_shown(out, after + 1, time);
    out[last] = b'\n';
    last + 1
}

// Puts the line of this number at a place, where the longest line has room.
pub fn put_line(out: &mut [u8], at: usize, number: u64, letters: [u8; 2], answer: Answered) -> usize
    ensures { record { next = result; bytes = out.new } ≡ line_put out.old at number letters answer }
{
    if !text::has_room(out.len(), at, LINE_ROOM) {
        return at;
    }
    let returned = answer.number;
    let time = answer.time;
    let tail = put_head(out, at, number, letters);
    put_tail(out, tail, returned, time)
}

// ---- the end of the listing

// The last line: `end` and the count of the lines before it.
fn put_count(out: &mut [u8], at: usize, count: u64) -> usize
    requires { at + end_room ≤ length out.old }
    ensures { Put out.old at (end_line count) result out.new }
{
    let after = at + 4;
    out[at..after].copy_from_slice(b"end ");
    let last = text::put_decimal(out, after, count);
    out[last] = b'\n';
    last + 1
}

// The line of what ended the reading, and the last line.
fn put_refused(out: &mut [u8], at: usize, count: u64, why: Refusal) -> usize
    requires { (at + (line_room + end_room) ≤ length out.old) × (count < most_lines) }
    ensures { Put out.old at (ending count (number_of why)) result out.new }
{
    let answer = Answered {
        number: quantity::refusal_number(why),
        time: None,
    };
    let last = put_line(out, at, count + 1, [b'-', b'-'], answer);
    put_count(out, last, count + 1)
}

// Puts what ends a listing of so many lines at a place, where the longest such text has room and one more line can be
// counted.
pub fn put_end(out: &mut [u8], at: usize, count: u64, reading: Reading) -> usize
    ensures { record { next = result; bytes = out.new } ≡ end_put out.old at count reading }
{
    if !text::has_room(out.len(), at, LINE_ROOM + END_ROOM) {
        return at;
    }
    if count >= MOST_LINES {
        return at;
    }
    match reading {
        Reading::Found { .. } => put_count(out, at, count),
        Reading::NothingLeft => put_count(out, at, count),
        Reading::Refused(why) => put_refused(out, at, count, why),
    }
}
