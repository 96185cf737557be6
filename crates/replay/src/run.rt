// One command of a log run again, and whether its reply is the recorded one.

ghost use Rattle.std.specs.Prelude.{◌≡◌, ◌≤◌, length};
ghost use Rattle.replay.specs.Running.{said_so, answer_length, Runs, table};

use frames::{Recorded, same_digits};
use octets::{Refusal, filled};
use server::answer_words;

// How many records are rows after a command, and whether it was answered as recorded.
#[derive(Clone, Copy)]
pub(crate) struct Ran {
    pub rows: usize,
    pub same: bool,
}

// Whether a reply is the recorded one: an answer at the front of its buffer, whose bytes are these digits', or the number of a refusal.
fn same_reply(
    written: Result<usize, Refusal>,
    answer: &[u8],
    recorded: Recorded,
    digits: &[u8],
) -> bool
    requires { answer_length written ≤ length answer.now }
    ensures { result ≡ said_so written answer.now recorded digits.now }
{
    match (written, recorded) {
        (Ok(n), Recorded::Answer) => same_digits(digits, &answer[..n]),
        (Ok(_), Recorded::Number(_)) => false,
        (Err(_), Recorded::Answer) => false,
        (Err(refusal), Recorded::Number(k)) => k == refusal.number(),
    }
}

// A command, its reader first, over the records: words, summary, area and rows are then as it left them.
pub(crate) fn run(
    words: &mut [u64],
    sums: &mut [u64],
    rows: usize,
    area: &mut [u8],
    namespaces: &[u8],
    command: &[u8],
    recorded: Recorded,
    digits: &[u8],
) -> Ran
    requires { 1 ≤ length command.now }
    ensures { Runs namespaces.now command.now recorded digits.now rows
        (table words.old sums.old area.old)
        (table words.new sums.new area.new) result }
{
    // "with an answer buffer of 16,384 bytes"
    let mut answer: [u8; 16384] = filled(0);
    let reader = command[0];
    let done = answer_words(
        words,
        sums,
        rows,
        reader,
        area,
        namespaces,
        &command[1..],
        &mut answer,
    );
    let written = done.written;
    let same = same_reply(written, &answer, recorded, digits);
    let count = done.count;
    Ran { rows: count, same }
}
