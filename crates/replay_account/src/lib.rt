// The account of a run in parts: which lines there are to tell, and as many of them in lent bytes as have room.
// The run is `line`'s, the text of a line `replay_text`'s, and what a session of parts gives `intake`'s. Input and output
// live with the programs.
#![tactic(auto)]

ghost use Rattle.std.specs.Prelude.{◌≡◌, ◌&&◌, ltb, leb, length};
ghost use Rattle.replay_text.specs.Lines.{line_room};
ghost use Rattle.replay_account.specs.Account.{account_of, part_put};
ghost use Rattle.replay_account.specs.Steps.{shown_of, Within, LineAt, next_after};

use event::Stop;
use intake::Next;
use line::Ran;
use quantity::Ticks;
use replay_text::Line;

// What there is to tell of a run: the answers to so many frames, so many picks, and how it stopped.
#[derive(Clone, Copy)]
pub struct Account {
    pub frames: usize,
    pub picks: usize,
    pub last: Line,
}

// A part of an account: so many bytes at the front of the lent ones, the number of the next line, and what comes after
// this part.
#[derive(Clone, Copy)]
pub struct Part {
    pub line: usize,
    pub written: usize,
    pub next: Next,
}

// What there is to tell of a run. One that is refused has answered no frame and picked none.
pub fn account_of(ran: Ran) -> Account
    ensures { result ≡ account_of ran }
{
    let stop = ran.stop;
    let number = event::stop_number(stop);
    if let Stop::Refused(_) = stop {
        return Account {
            frames: 0,
            picks: 0,
            last: Line::Refused(number),
        };
    }
    Account {
        frames: ran.next,
        picks: ran.picks,
        last: Line::Stop {
            number,
            next: ran.next as u64,
            free: ran.free,
            events: ran.events,
            picks: ran.picks as u64,
        },
    }
}

// ---- the lines, by their numbers

// The same account, with no more frames and picks than the lists hold.
#[tactic(auto, unfolding(crate::specs::Steps::shown_of))]
fn shown(account: Account, answers: usize, picked: usize, moments: usize) -> Account
    ensures { result ≡ shown_of account answers picked moments }
{
    Account {
        frames: account.frames.min(answers),
        picks: account.picks.min(picked).min(moments),
        ..account
    }
}

// The line of a number: the answers come first, then the picks, then the last line.
fn line_at(account: Account, answers: &[u8], picked: &[u32], moments: &[u64], k: usize) -> Line
    requires { Within account (length answers.now) (length picked.now) (length moments.now) }
    ensures { LineAt account answers.now picked.now moments.now k result }
{
    let frames = account.frames;
    if k < frames {
        return Line::Answer {
            place: k as u64,
            number: answers[k],
        };
    }
    let i = k - frames;
    if i < account.picks {
        return Line::Pick {
            handle: picked[i],
            moment: Ticks(moments[i]),
        };
    }
    account.last
}

// ---- a part

// Whether a line is put: there is one, and the longest line has room.
fn goes_on(k: usize, lines: usize, room: usize) -> bool
    ensures { result ≡ ltb k lines && leb line_room room }
{
    k < lines && replay_text::LINE_ROOM <= room
}

// What comes after the lines from the one number up to the other. None where there is some is for want of room.
#[tactic(auto, unfolding(crate::specs::Steps::next_after))]
fn next_after(from: usize, k: usize, lines: usize) -> Next
    ensures { result ≡ next_after from k lines }
{
    if lines <= k {
        Next::Ends
    } else if k <= from {
        Next::Fails
    } else {
        Next::GoesOn
    }
}

// Puts the lines of an account at the front of `out`, from a number on, as far as the longest line has room. The lists come
// one by one, as `line::run` fills them.
pub fn put_part(
    out: &mut [u8],
    account: Account,
    answers: &[u8],
    picked: &[u32],
    moments: &[u64],
    from: usize,
) -> Part
    ensures { record { part = result; out = out.new } ≡ part_put account answers.now picked.now moments.now from out.old }
{
    let told = shown(account, answers.len(), picked.len(), moments.len());
    let lines = told.frames + told.picks + 1;
    // No `for`: the number that it comes to is handed back, and a `for` would have to give it in two places.
    let mut k = from;
    let mut written: usize = 0;
    while goes_on(k, lines, out.len() - written) {
        let line = line_at(told, answers, picked, moments, k);
        written = replay_text::put_line(out, written, line);
        k += 1;
    }
    Part {
        line: k,
        written,
        next: next_after(from, k, lines),
    }
}
