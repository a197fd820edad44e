// The listing of a table file: reads it from standard input, and writes a line for each record and an end line.
// What a turn lists, and what comes after it, is `listing_turn`'s, and proved there; to read and to write is `console`'s.
// Here is the loop, which makes each turn where the one before it and the reading after that have left the listing.
#![tactic(auto)]

ghost use Rattle.std.specs.Prelude.{◌≡◌, length};
ghost use Rattle.intake.specs.Holding.{Within};
ghost use Rattle.listing_turn.specs.Turns.{turn_made};
ghost use Rattle.listing_turn.specs.Promises.{MayList};

use console::{Edge, Failure};
use intake::{Next, Turned};
use listing_turn::Standing;
use std::io::{Read, Write};

// Makes the turn of this number, where the program may.
fn list_on(input: &mut [u8], output: &mut [u8], standing: Standing, turn: u64) -> Turned<Standing>
    requires { Within standing.held (length input.old) × MayList (length output.old) turn standing input.old }
    ensures { record { turned = result; input = input.new; output = output.new } ≡ turn_made standing input.old output.old }
{
    listing_turn::turn(input, output, standing)
}

// Turn after turn. A proved loop has to end, and nothing says that an input does: the turns are counted, up to a number
// that no run reaches. Of a writing that fails, the records are those whose lines were written whole before, and the
// bytes those written.
// The replay's loops share no more with it than the match on what comes next: a function of that would take three closures over the same state.
fn list_all<R: Read, W: Write, E: Write>(
    stdin: &mut R,
    stdout: &mut W,
    stderr: &mut E,
    input: &mut [u8],
    output: &mut [u8],
) {
    let mut standing = listing_turn::begin();
    let mut sent: u64 = 0;
    let mut error: i32 = 0;
    for turn in 0..u64::MAX {
        let records = standing.count;
        let turned = list_on(input, output, standing, turn);
        standing = turned.standing;
        let written = turned.written;
        if let Err(part) = console::write_out(stdout, &output[..written]) {
            let failure = Failure {
                edge: Edge::Writing,
                records,
                bytes: sent.wrapping_add(part.count as u64),
            };
            console::tell_failure(stderr, failure, part.error);
            return;
        }
        sent = sent.wrapping_add(written as u64);
        match turned.next {
            Next::GoesOn => {}
            Next::Reads => {
                let came = console::read_behind(stdin, input, standing.held);
                standing = Standing {
                    held: came.held,
                    ..standing
                };
                error = came.got.err().unwrap_or(0);
            }
            Next::Ends => return,
            Next::Fails => break,
        }
    }
    let failure = Failure {
        edge: Edge::Reading,
        records: standing.count,
        bytes: standing.bytes,
    };
    console::tell_failure(stderr, failure, error);
}

fn main(rt: HostRuntime) {
    let mut input = console::large_buffer();
    let mut output = console::large_buffer();
    list_all(
        &mut rt.stdin(),
        &mut rt.stdout(),
        &mut rt.stderr(),
        &mut input,
        &mut output,
    );
}
