// Replay of a night (document 02, W14): a log of commands and of what was answered, run again over records.
//
// The log is fed in pieces of any length and is read once; between two pieces the state and the lent memory hold all that is kept of it, so
// memory does not grow with the log. An answer is not decoded: its digits are compared with the bytes that are answered now.
//
// Records are lent as numbers (`word_of` of records/specs), and the numbers of their summary beside them: as many records as there are of both.
#![tactic(auto)]

mod frame;
mod gathering;
mod piece;
mod run;
mod verdict;
mod whole;

ghost use Rattle.std.specs.Prelude.{◌≡◌};
ghost use Rattle.replay.specs.Holding.{memory};
ghost use Rattle.replay.specs.Feeding.{ready, start_is, FeedIs};

use frame::end_frame;
use frames::MAX_COMMAND;
use gathering::{MAX_GATHERED, gather, line_end};
pub use piece::{Piece, replay_piece};
pub use verdict::{Verdict, finish};
pub use whole::{Replayed, replay_words};

// A replay between two pieces of its log: how many frames have ended; the number of the first frame of 43 whose answer differs, or 0; how many
// bytes of `pending` are the command whose answer is due, its reader first, or 0; whether the last frame stopped it; how many characters of the
// frame so far `line` holds; and how many records are rows.
//
// `first` and `due` stay numbers, 0 for none: C hands over the same, and any number is taken.
#[derive(Clone, Copy)]
pub struct Replaying {
    pub frames: usize,
    pub first: usize,
    pub due: usize,
    pub stopped: bool,
    pub gathered: usize,
    pub rows: usize,
}

impl Replaying {
    // No frame yet, over records of which the first `rows` are rows: what any memory holds at the start of a log.
    pub fn start(rows: usize) -> Replaying
        ensures { result ≡ start_is rows }
    {
        Replaying {
            frames: 0,
            first: 0,
            due: 0,
            stopped: false,
            gathered: 0,
            rows,
        }
    }
}

// Whether 2,050 bytes are lent for the command whose answer is due and 32,771 for the characters of a frame, the state lies within them, and
// every byte of the piece might end a frame.
fn is_ready(state: Replaying, pending: usize, line: usize, chunk: usize) -> bool
    ensures { result ≡ ready pending line chunk state }
{
    (MAX_COMMAND <= pending)
        & ((MAX_GATHERED <= line)
            & ((state.due <= MAX_COMMAND)
                & (((state.due == 0) | (0 < state.frames))
                    & ((state.gathered <= MAX_GATHERED) & (state.frames < usize::MAX - chunk)))))
}

// One piece of a log, of any length, taken whole. `pending` holds the command whose answer is due, `line` the characters of the frame so far; the
// words, the summary's numbers and the area of names are the table as the commands run so far left it. After a stop bytes are ignored.
pub fn feed(
    state: Replaying,
    words: &mut [u64],
    sums: &mut [u64],
    area: &mut [u8],
    namespaces: &[u8],
    pending: &mut [u8],
    line: &mut [u8],
    chunk: &[u8],
) -> Option<Replaying>
    ensures { FeedIs namespaces.now chunk.now
        (memory words.old sums.old area.old pending.old line.old)
        (memory words.new sums.new area.new pending.new line.new) state result }
{
    if !is_ready(state, pending.len(), line.len(), chunk.len()) {
        return None;
    }
    let mut held = state;
    let mut at = 0;

    // A `while`: each turn takes the characters before the next line feed, however many, and that line feed if there is one.
    while at < chunk.len() {
        if held.stopped {
            return Some(held);
        }
        let end = line_end(chunk, at);
        held = gather(held, line, &chunk[at..end]);
        if end < chunk.len() {
            held = end_frame(held, words, sums, area, namespaces, pending, line);
            at = end + 1;
        } else {
            at = end;
        }
    }
    Some(held)
}
