// A session of the program: pieces of input fed as they come, cut anywhere, over lent memory that holds what is stored and the
// frame so far; each frame is carried out at its line feed.
//
// What is kept of the table, and what a command or a walk does over it, is `kept_table`'s.
//
// A call of `feed` takes a piece through its first line feed and no further, so it has at most one line of output; the caller
// goes on with the rest of the piece. Of a frame too long to be one nothing is kept but that it is.
#![tactic(auto)]

mod carrying;
mod gathering;

ghost use Rattle.std.specs.Prelude.{◌≡◌};
ghost use Rattle.kept_table.specs.Kept.{lent};
ghost use Rattle.session.specs.Feeding.{ready, taken_is, Starts, FeedIs, Finishes};

use carrying::end_frame;
use frames::{Gathered, MAX_DIGITS, put_refusal};
use gathering::gather_line;
use kept_table::{Lengths, MAX_NAMESPACES, MAX_NUMBERS, MAX_TABLE};
use octets::Refusal;

// The longest line of output: two digits for each of 1 + 16,384 bytes, and a line feed.
pub const MAX_LINE: usize = 32771;

// What is stored between two pieces of input, and what is gathered of the frame so far.
#[derive(Clone, Copy)]
pub struct State {
    pub stored: Lengths,
    pub gathered: Gathered,
}

impl State {
    // Nothing stored and no frame begun: what any memory holds at first.
    pub fn start() -> State
        ensures { Starts result }
    {
        State {
            stored: Lengths {
                table: 0,
                namespaces: 0,
                edited: false,
            },
            gathered: Gathered::NONE,
        }
    }
}

// The state after the bytes that were taken, how many they were, and how many bytes of output lie at the front of `out`.
#[derive(Clone, Copy)]
pub struct Taken {
    pub state: State,
    pub used: usize,
    pub written: usize,
}

// Whether the memory has document 01's sizes and the state speaks of bytes within them.
fn is_ready(
    state: State,
    table: usize,
    records: usize,
    namespaces: usize,
    line: usize,
    out: usize,
) -> bool
    ensures { result ≡ ready table records namespaces line out state }
{
    let stored = state.stored;
    let digits = state.gathered.len;
    (MAX_TABLE <= table)
        & ((MAX_NUMBERS <= records)
            & ((MAX_NAMESPACES <= namespaces)
                & ((MAX_DIGITS <= line)
                    & ((MAX_LINE <= out)
                        & ((stored.table <= MAX_TABLE)
                            & ((stored.namespaces <= MAX_NAMESPACES)
                                & digits.is_none_or(|n| n <= MAX_DIGITS)))))))
}

// The bytes of the piece through its first line feed, or all if there is none. `table` and `namespaces` hold the stored bytes at
// their front, `line` the digits of the frame so far; `out` takes the line that the frame answers. Once an edit was accepted, the first
// 512 of `records` are the records, each as a number (`word_of` of records/specs), the next 512 their summary, and the first 16,384 bytes of `table` their names'
// area.
pub fn feed(
    state: State,
    chunk: &[u8],
    table: &mut [u8],
    records: &mut [u64],
    namespaces: &mut [u8],
    line: &mut [u8],
    out: &mut [u8],
) -> Option<Taken>
    ensures { FeedIs chunk.now
        (lent table.old records.old namespaces.old out.old)
        (lent table.new records.new namespaces.new out.new)
        line.old line.new state result }
{
    let sized = is_ready(
        state,
        table.len(),
        records.len(),
        namespaces.len(),
        line.len(),
        out.len(),
    );
    if !sized {
        return None;
    }
    let so_far = state.gathered;
    let stored = state.stored;
    let run = gather_line(line, so_far, chunk);
    let gathered = run.gathered;
    let used = run.used;
    if chunk.len() <= used {
        return answer_taken(stored, gathered, used, 0);
    }
    let done = end_frame(stored, gathered, line, table, records, namespaces, out);
    let now_stored = done.stored;
    answer_taken(now_stored, Gathered::NONE, used + 1, done.written)
}

// The answer of a piece that was taken.
fn answer_taken(stored: Lengths, gathered: Gathered, used: usize, written: usize) -> Option<Taken>
    ensures { result ≡ taken_is stored gathered used written }
{
    let state = State { stored, gathered };
    let taken = Taken {
        state,
        used,
        written,
    };
    Some(taken)
}

// The end of the input: a frame without its line feed is 13.
pub fn finish(state: State, out: &mut [u8]) -> usize
    ensures { Finishes out.old out.new state result }
{
    let g = state.gathered;
    if g.is_empty() {
        return 0;
    }
    put_refusal(out, 0, Refusal::BadFrame.number())
}
