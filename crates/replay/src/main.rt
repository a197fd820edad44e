// Replays a table file against a line: reads the file from standard input, sets up its groups and streams, runs its
// frames against a line of the rate that the first argument gives, free from the moment that the second gives (0 where
// there is none), and prints each frame's answer, each pick and how the run stopped. What a turn of the reading gathers,
// what the run does and what is told of it is `replay_turn`'s, `line`'s and `replay_account`'s, and proved there; to read
// and to write is `console`'s. Here are the arguments, the lists and the two loops.
#![tactic(auto)]

ghost use Rattle.std.specs.Prelude.{◌≡◌, ◌≤◌, true, false, length};
ghost use Rattle.intake.specs.Holding.{Within};
ghost use Rattle.replay_text.specs.Lines.{line_room, text_of};
ghost use Rattle.replay_turn.specs.Turns.{turn_made};
ghost use Rattle.replay_turn.specs.Protocol.{Places, MayGather, HasGathered};
ghost use Rattle.replay_account.specs.Account.{lines_of, part_put};
ghost use Rattle.replay_account.specs.Promises.{MayTell};
ghost use Rattle.replay.specs.Replaying.{Replayed};

use console::{Edge, Failure};
use intake::{Next, Turned};
use line::Ran;
use quantity::{Rate, Ticks};
use replay_account::{Account, Part};
use replay_turn::Standing;
use std::env::{Env, FillError};
use std::io::{Read, Write};

// The places of each list: as many as a run takes.
const PLACES: usize = quantity::MOST_LIST_PLACES as usize;

// One arrival and one pick for each frame of full lists: the budget always suffices.
const EVENT_BUDGET: u64 = 2 * quantity::MOST_LIST_PLACES;

// An argument is shorter: Linux takes none that is longer.
const ARGUMENT_BYTES: usize = 131_072;

// A fresh list. It is a function's result, so that what uses it knows its length without unfolding its places.
fn list_of<T: Copy, const N: usize>(zero: T) -> [T; N]
    ensures { N ≡ length result }
{
    [zero; N]
}

// ---- what goes to standard error

fn say<E: Write>(stderr: &mut E, line: &[u8]) {
    let _ = console::write_out(stderr, line);
}

// ---- the arguments

// Whether there is an argument of this number.
fn has_argument(rt: &impl Env, i: usize) -> bool {
    let mut byte = [0u8; 1];
    !matches!(rt.arg(i, &mut byte), Err(FillError::NotPresent))
}

// How many arguments there are, the program's name among them, and 4 where there are more.
fn argument_count(rt: &impl Env) -> usize {
    for i in 0..4 {
        if !has_argument(rt, i) {
            return i;
        }
    }
    4
}

// The number that an argument is, if it is one.
fn argument(rt: &impl Env, i: usize) -> Option<u64> {
    let mut buf = list_of::<u8, ARGUMENT_BYTES>(0);
    match rt.arg(i, &mut buf) {
        Ok(length) => text::number_in(&buf[..length]),
        Err(_) => None,
    }
}

// ---- the table file

// Makes the turn of this number, where the program may.
fn gather_on(
    input: &mut [u8],
    notes: &mut [u8],
    arrivals: &mut [u64],
    ids: &mut [u8],
    octets: &mut [u16],
    standing: Standing,
    turn: u64,
) -> Turned<Standing>
    requires { Within standing.held (length input.old) × (line_room ≤ length notes.old) × MayGather 65536 turn standing input.old arrivals.old ids.old octets.old }
    ensures { record { turned = result; input = input.new; notes = notes.new; arrivals = arrivals.new; ids = ids.new; octets = octets.new }
        ≡ turn_made standing input.old notes.old arrivals.old ids.old octets.old }
{
    replay_turn::turn(input, notes, arrivals, ids, octets, standing)
}

// Says that a reading did not come to its end, and gives where it stands: nothing is to be run.
fn unended<E: Write>(stderr: &mut E, standing: Standing, error: i32) -> Standing
    ensures { (result.whole ≡ false) × (result.count ≡ 0) }
{
    let failure = Failure {
        edge: Edge::Reading,
        records: standing.records,
        bytes: standing.bytes,
    };
    console::tell_failure(stderr, failure, error);
    Standing {
        count: 0,
        whole: false,
        ..standing
    }
}

// Reads the whole of the input, turn after turn. A proved loop has to end, and nothing says that an input does: the
// turns are counted, up to a number that no run reaches.
fn read_table<R: Read, E: Write>(
    stdin: &mut R,
    stderr: &mut E,
    input: &mut [u8],
    notes: &mut [u8],
    arrivals: &mut [u64],
    ids: &mut [u8],
    octets: &mut [u16],
) -> Standing
    requires { (line_room ≤ length notes.old) × Places 65536 arrivals.old ids.old octets.old }
    ensures { (result.whole ≡ true → HasGathered 65536 result arrivals.new ids.new octets.new) × (result.count ≤ 65536)
        × Places 65536 arrivals.new ids.new octets.new }
{
    let mut standing = replay_turn::begin();
    let mut error: i32 = 0;
    for turn in 0..u64::MAX {
        let turned = gather_on(input, notes, arrivals, ids, octets, standing, turn);
        standing = turned.standing;
        let written = turned.written;
        let _ = console::write_out(stderr, &notes[..written]);
        match turned.next {
            Next::GoesOn => {}
            Next::Reads => {
                let came = console::read_behind(stdin, input, standing.held);
                standing = Standing {
                    held: came.held,
                    ..standing
                };
                error = came.got.err().unwrap_or(0);
            }
            Next::Ends => return standing,
            Next::Fails => return unended(stderr, standing, error),
        }
    }
    unended(stderr, standing, error)
}

// ---- standard output

// Puts the part of this number of an account, from a line on, where the program may.
fn tell_on(
    out: &mut [u8],
    account: Account,
    answers: &[u8],
    picked: &[u32],
    moments: &[u64],
    from: usize,
    turn: u64,
) -> Part
    requires { MayTell (length out.old) (lines_of account answers.now picked.now moments.now) turn from × (length (text_of account.last) ≤ line_room) }
    ensures { (record { part = result; out = out.new } ≡ part_put account answers.now picked.now moments.now from out.old)
        × (result.written ≤ length out.old) }
{
    replay_account::put_part(out, account, answers, picked, moments, from)
}

// Says that a writing failed, of so many records and after so many bytes.
fn unwritten<E: Write>(stderr: &mut E, records: u64, bytes: u64, error: i32) {
    let failure = Failure {
        edge: Edge::Writing,
        records,
        bytes,
    };
    console::tell_failure(stderr, failure, error);
}

// Writes an account, part after part. Of a writing that fails, the records are those that were read, and the bytes those
// written.
fn print_account<W: Write, E: Write>(
    stdout: &mut W,
    stderr: &mut E,
    out: &mut [u8],
    account: Account,
    answers: &[u8],
    picked: &[u32],
    moments: &[u64],
    records: u64,
)
    requires { length (text_of account.last) ≤ line_room }
{
    let mut from: usize = 0;
    let mut sent: u64 = 0;
    for turn in 0..u64::MAX {
        let part = tell_on(out, account, answers, picked, moments, from, turn);
        from = part.line;
        let written = part.written;
        if let Err(rest) = console::write_out(stdout, &out[..written]) {
            let bytes = sent.wrapping_add(rest.count as u64);
            unwritten(stderr, records, bytes, rest.error);
            return;
        }
        sent = sent.wrapping_add(written as u64);
        match part.next {
            Next::GoesOn => {}
            Next::Ends => return,
            // An account asks for no input, and a buffer of this size has room for a line.
            Next::Reads | Next::Fails => {
                unwritten(stderr, records, sent, 0);
                return;
            }
        }
    }
}

// The lines of a run of what a whole file gave.
fn print_run<W: Write, E: Write>(
    stdout: &mut W,
    stderr: &mut E,
    ran: Ran,
    answers: &[u8],
    picked: &[u32],
    moments: &[u64],
    records: u64,
)
    requires { Replayed ran answers.now picked.now moments.now }
{
    let mut out = console::large_buffer();
    let account = replay_account::account_of(ran);
    print_account(
        stdout, stderr, &mut out, account, answers, picked, moments, records,
    );
}

// ---- the run

// Runs what a table file has given, the whole of which was read, and prints the lines.
fn run_table<W: Write, E: Write>(
    stdout: &mut W,
    stderr: &mut E,
    standing: Standing,
    arrivals: &[u64],
    ids: &[u8],
    octets: &[u16],
    rate: Rate,
    free: Ticks,
)
    requires { HasGathered 65536 standing arrivals.now ids.now octets.now × (standing.whole ≡ true)
        × (standing.count ≤ length arrivals.now) × (standing.count ≤ length ids.now) × (standing.count ≤ length octets.now) }
{
    let bridge = standing.bridge;
    let count = standing.count;
    let mut answers = list_of::<u8, PLACES>(0);
    let mut picked = list_of::<u32, PLACES>(0);
    let mut moments = list_of::<u64, PLACES>(0);
    let ran = line::run(
        bridge,
        waiting::empty(),
        &arrivals[..count],
        &ids[..count],
        &octets[..count],
        0,
        rate,
        free,
        EVENT_BUDGET,
        &mut answers,
        &mut picked,
        &mut moments,
    );
    print_run(
        stdout,
        stderr,
        ran,
        &answers,
        &picked,
        &moments,
        standing.records,
    );
}

// Reads the table file and, where the whole of it could be read, runs it. The system's three ends go one by one: each is of
// its own type, and a struct of them would carry three parameters instead.
fn replay<R: Read, W: Write, E: Write>(
    stdin: &mut R,
    stdout: &mut W,
    stderr: &mut E,
    rate: Rate,
    free: Ticks,
) {
    let mut arrivals = list_of::<u64, PLACES>(0);
    let mut ids = list_of::<u8, PLACES>(0);
    let mut octets = list_of::<u16, PLACES>(0);
    let mut input = console::large_buffer();
    let mut notes = console::buffer();
    let standing = read_table(
        stdin,
        stderr,
        &mut input,
        &mut notes,
        &mut arrivals,
        &mut ids,
        &mut octets,
    );
    if standing.whole {
        run_table(
            stdout, stderr, standing, &arrivals, &ids, &octets, rate, free,
        );
    }
}

// Replays with the numbers that the arguments are.
fn replay_with<R: Read, W: Write, E: Write>(
    stdin: &mut R,
    stdout: &mut W,
    stderr: &mut E,
    rate: Option<u64>,
    free: Option<u64>,
) {
    let Some(rate) = rate else {
        say(stderr, b"replay: the line rate is no number\n");
        return;
    };
    let Some(free) = free else {
        say(stderr, b"replay: line-free is no number\n");
        return;
    };
    replay(stdin, stdout, stderr, Rate(rate), Ticks(free));
}

// The line is free from 0 on where no moment is given.
fn main(rt: HostRuntime) {
    let mut stdin = rt.stdin();
    let mut stdout = rt.stdout();
    let mut stderr = rt.stderr();
    match argument_count(&rt) {
        2 => replay_with(
            &mut stdin,
            &mut stdout,
            &mut stderr,
            argument(&rt, 1),
            Some(0),
        ),
        3 => replay_with(
            &mut stdin,
            &mut stdout,
            &mut stderr,
            argument(&rt, 1),
            argument(&rt, 2),
        ),
        _ => say(
            &mut stderr,
            b"usage: replay LINE-RATE [LINE-FREE] < TABLE\n",
        ),
    }
}
