// Runs the figures of document 01 that are not marked P, each number of 'Numbers returned' at least once, and the examples of
// source document 000, figures 1 and 3, in our units. Each line says what was tried and the numbers that came; the file `stdout`
// beside it has them as the documents do. (The ends of the ranges and the orders of the refusals are theorems in `cases`.)
#![tactic(auto)]

ghost use Rattle.std.specs.Prelude.{◌≡◌, ◌≤◌};
ghost use Rattle.waiting.specs.Answers.{entered_number, picked_number};

use bridge::Bridge;
use calls::set_up_number;
use event::stop_number;
use places::{Entry, Picked, Waiting};
use quantity::{Bits, Rate, Refusal, Ticks, refusal_number};
use records::{Answer, answer_number};
use std::io::Write;
use tablefile::Record;

const RESIDENCE: u64 = 224_000;

const GIGABIT: u64 = 1_000_000_000;

// A token of source document 000 in our units: 100 octets, the 20 of the line among them, and a unit of time, which is a
// microsecond, to earn it.
const TOKEN_BITS: u64 = 800;

const TWO_TOKENS: u64 = 2 * TOKEN_BITS;

const THREE_TOKENS: u64 = 3 * TOKEN_BITS;

const TOKEN_RATE: u64 = 800_000_000;

const HALF_RATE: u64 = TOKEN_RATE / 2;

// Longer than any frame of these figures waits.
const LONG_RESIDENCE: u64 = 1_000_000;

fn say<W: Write>(out: &mut W, what: &[u8], n: u64) {
    let _ = out.write_all(what);
    let _ = writeln!(out, "{n}");
}

// ---- answers as numbers

// What is printed: 0 where there is no time.
fn framed_time(answer: Answer) -> u64 {
    match answer {
        Answer::Released(t) => t.0,
        Answer::Discarded(t) => t.0,
        Answer::Refused(_) => 0,
    }
}

fn entered_number(answer: Result<(), Refusal>) -> u8
    ensures { result ≡ entered_number answer }
{
    set_up_number(answer)
}

fn picked_number(answer: Picked) -> u8
    ensures { result ≡ picked_number answer }
{
    match answer {
        Picked::Leaves { .. } => 0,
        Picked::Nothing => 2,
        Picked::Refused(why) => refusal_number(why),
    }
}

// The handle of the entry that leaves, or what is printed where none does.
fn picked_handle(answer: Picked) -> u32 {
    match answer {
        Picked::Leaves { entry, .. } => entry.handle,
        Picked::Nothing => 0,
        Picked::Refused(_) => 0,
    }
}

// ---- the tables of document 01's figures: group 0 and stream 0

fn with_group(residence: u64) -> Bridge {
    bridge::set_up_group(bridge::fresh(), 0, 6, Ticks(residence)).bridge
}

// One bucket more of group 0.
fn and_bucket(tables: Bridge, id: u8, rate: u64, bits: u64) -> Bridge {
    bridge::set_up_stream(tables, id, 0, Rate(rate), Bits(bits)).bridge
}

fn with_stream(residence: u64) -> Bridge {
    and_bucket(with_group(residence), 0, 9_000_000, 1_344)
}

fn after_frame(tables: Bridge, arrival: u64) -> Bridge {
    bridge::frame(tables, 0, 64, Ticks(arrival)).bridge
}

// Two frames at 0, with a residence limit one below what the third would wait.
fn before_discard() -> Bridge {
    after_frame(after_frame(with_stream(74_666), 0), 0)
}

fn with_class_8() -> Bridge {
    let mut tables = with_stream(RESIDENCE);
    tables.groups[0].class = 8;
    tables
}

fn try_frame<W: Write>(out: &mut W, what: &[u8], tables: Bridge, octets: u16, arrival: u64) {
    let answer = bridge::frame(tables, 0, octets, Ticks(arrival)).answer;
    say(out, what, answer_number(answer) as u64);
}

fn try_group<W: Write>(out: &mut W, what: &[u8], id: u8, class: u8, residence: u64) {
    let tables = with_group(RESIDENCE);
    let answer = bridge::set_up_group(tables, id, class, Ticks(residence)).answer;
    say(out, what, set_up_number(answer) as u64);
}

fn try_stream<W: Write>(out: &mut W, what: &[u8], group: u8, rate: u64, burst: u64) {
    let tables = with_stream(RESIDENCE);
    let answer = bridge::set_up_stream(tables, 1, group, Rate(rate), Bits(burst)).answer;
    say(out, what, set_up_number(answer) as u64);
}

// ---- waiting places

fn entry(handle: u32, time: u64) -> Entry {
    Entry {
        handle,
        time: Ticks(time),
        bits: Bits(672),
    }
}

// The places with so many entries in class 3.
fn filled(n: u32) -> Waiting {
    let mut places = waiting::empty();
    for k in 0..n {
        places = waiting::enter(places, 3, entry(k, 5)).waiting;
    }
    places
}

// One more entry.
fn try_entry_after<W: Write>(out: &mut W, what: &[u8], n: u32) {
    let answer = waiting::enter(filled(n), 3, entry(n, 5)).answer;
    say(out, what, entered_number(answer) as u64);
}

// Handles 7 and 8 with equal times.
fn seven_and_eight() -> Waiting {
    let one = waiting::enter(waiting::empty(), 3, entry(7, 5)).waiting;
    waiting::enter(one, 3, entry(8, 5)).waiting
}

fn only_eight() -> Waiting {
    waiting::pick(seven_and_eight(), Ticks(5)).waiting
}

// A class that has more entries than places.
fn overfull() -> Waiting {
    let mut places = waiting::empty();
    places.fills[3] = 33;
    places
}

fn try_pick<W: Write>(out: &mut W, what: &[u8], places: Waiting, moment: u64) {
    let answer = waiting::pick(places, Ticks(moment)).answer;
    say(out, what, picked_number(answer) as u64);
}

fn try_handle<W: Write>(out: &mut W, what: &[u8], places: Waiting) {
    let answer = waiting::pick(places, Ticks(5)).answer;
    say(out, what, picked_handle(answer) as u64);
}

// ---- the table file

fn try_read<W: Write>(out: &mut W, what: &[u8], bytes: &[u8]) {
    say(
        out,
        what,
        tablefile::reading_number(reader::read(bytes, 0)) as u64,
    );
}

fn try_short_part<W: Write>(out: &mut W) {
    let mut part = [0u8; 3];
    let written = writer::write(Record::GroupDefault { group: 0, class: 0 }, &mut part);
    say(
        out,
        b"three bytes for a GD: ",
        tablefile::written_number(written) as u64,
    );
}

// ---- runs

// Two frames at 0 against a line: so many lengths for them, and so many places for picks.
fn try_run<W: Write>(
    out: &mut W,
    what: &[u8],
    lengths: usize,
    places: usize,
    rate: u64,
    free: u64,
    budget: u64,
)
    requires { (lengths ≤ 3) × (places ≤ 2) }
{
    let octets = [64u16; 3];
    let mut answers = [0u8; 2];
    let mut picked = [0u32; 2];
    let mut moments = [0u64; 2];
    let stop = line::run(
        with_stream(RESIDENCE),
        waiting::empty(),
        &[0; 2],
        &[0; 2],
        &octets[..lengths],
        0,
        Rate(rate),
        Ticks(free),
        budget,
        &mut answers,
        &mut picked[..places],
        &mut moments,
    )
    .stop;
    say(out, what, stop_number(stop) as u64);
}

// ---- source document 000

// A frame, and the time that it gets.
fn step<W: Write>(
    out: &mut W,
    tables: Bridge,
    what: &[u8],
    id: u8,
    octets: u16,
    arrival: u64,
) -> Bridge {
    let after = bridge::frame(tables, id, octets, Ticks(arrival));
    let answer = after.answer;
    say(out, what, framed_time(answer));
    after.bridge
}

// Figure 1: one bucket of three tokens, a token for each unit of time; frames of 2, 2, 3, 2 and 2 tokens.
fn figure_1<W: Write>(out: &mut W) {
    let mut tables = with_group(LONG_RESIDENCE);
    tables = and_bucket(tables, 0, TOKEN_RATE, THREE_TOKENS);
    tables = step(out, tables, b"figure 1, A at 1000: ", 0, 180, 1_000);
    tables = step(out, tables, b"figure 1, B at 2000: ", 0, 180, 2_000);
    tables = step(out, tables, b"figure 1, C at 3000: ", 0, 280, 3_000);
    tables = step(out, tables, b"figure 1, D at 9000: ", 0, 180, 9_000);
    step(out, tables, b"figure 1, E at 9000: ", 0, 180, 9_000);
}

// Figure 3: two buckets of two tokens in one group, the first at half the rate.
fn figure_3<W: Write>(out: &mut W) {
    let mut tables = with_group(LONG_RESIDENCE);
    tables = and_bucket(tables, 0, HALF_RATE, TWO_TOKENS);
    tables = and_bucket(tables, 1, TOKEN_RATE, TWO_TOKENS);
    tables = step(out, tables, b"figure 3, A at 2000: ", 0, 180, 2_000);
    tables = step(out, tables, b"figure 3, X at 3000: ", 1, 80, 3_000);
    tables = step(out, tables, b"figure 3, B at 4000: ", 0, 180, 4_000);
    step(out, tables, b"figure 3, Y at 5000: ", 1, 80, 5_000);
}

// ---- all that is tried

fn frames<W: Write>(out: &mut W) {
    let tables = with_stream(RESIDENCE);
    try_frame(out, b"released: ", tables, 64, 0);
    try_frame(out, b"discarded: ", before_discard(), 64, 0);
    try_frame(
        out,
        b"a class of 8 in the group's record: ",
        with_class_8(),
        64,
        0,
    );
    try_frame(
        out,
        b"a stream that is not set up: ",
        with_group(RESIDENCE),
        64,
        0,
    );
    try_frame(out, b"2,001 octets: ", tables, 2_001, 0);
    try_frame(out, b"above the burst: ", tables, 149, 0);
    try_frame(
        out,
        b"arrival after its limit: ",
        tables,
        64,
        4_000_000_000_000_000_001,
    );
    try_frame(
        out,
        b"arrival before the last: ",
        after_frame(tables, 1_000),
        64,
        999,
    );
}

fn set_ups<W: Write>(out: &mut W) {
    try_group(out, b"group 16: ", 16, 6, 0);
    try_group(out, b"group 0 again: ", 0, 6, 0);
    try_stream(out, b"a stream in group 1: ", 1, 9_000_000, 1_344);
    try_stream(out, b"rate 999: ", 0, 999, 1_344);
    try_stream(out, b"burst 0: ", 0, 9_000_000, 0);
    try_group(out, b"residence above its limit: ", 1, 6, 10_000_000_001);
    try_group(out, b"class 8: ", 1, 8, 0);
}

fn queues<W: Write>(out: &mut W) {
    try_entry_after(out, b"32nd entry of a class: ", 31);
    try_entry_after(out, b"33rd entry of a class: ", 32);
    try_handle(
        out,
        b"handles 7, 8 with equal times, first: ",
        seven_and_eight(),
    );
    try_handle(
        out,
        b"handles 7, 8 with equal times, second: ",
        only_eight(),
    );
    try_pick(out, b"nothing eligible: ", seven_and_eight(), 4);
    try_pick(out, b"a class with 33 entries: ", overfull(), 5);
}

fn files<W: Write>(out: &mut W) {
    try_read(out, b"no byte left: ", b"");
    try_read(out, b"unknown mark: ", b"XY");
    try_read(out, b"one byte left: ", b"G");
    try_short_part(out);
}

fn runs<W: Write>(out: &mut W) {
    try_run(out, b"a run to its end: ", 2, 2, GIGABIT, 0, 9);
    try_run(out, b"a budget of 3 events: ", 2, 2, GIGABIT, 0, 3);
    try_run(out, b"one place for picks: ", 2, 1, GIGABIT, 0, 9);
    try_run(
        out,
        b"a pick after 4*10^18: ",
        2,
        2,
        GIGABIT,
        4_000_000_000_000_000_001,
        9,
    );
    try_run(out, b"lists of unequal length: ", 3, 2, GIGABIT, 0, 9);
    try_run(out, b"line rate 0: ", 2, 2, 0, 0, 9);
}

fn main(rt: HostRuntime) {
    let mut out = rt.stdout();
    frames(&mut out);
    set_ups(&mut out);
    queues(&mut out);
    files(&mut out);
    runs(&mut out);
    figure_1(&mut out);
    figure_3(&mut out);
}
