// A whole log as one piece.

ghost use Rattle.replay.specs.Running.{table};
ghost use Rattle.replay.specs.Whole.{Replays};

use crate::{Replaying, Verdict, feed, finish};
use octets::filled;

// The report, and how many records are rows at the end.
#[derive(Clone, Copy)]
pub struct Replayed {
    pub verdict: Verdict,
    pub count: usize,
}

// The log run over the records, of which the first `count` are rows: words, summary and area are then as its commands left them.
pub fn replay_words(
    words: &mut [u64],
    sums: &mut [u64],
    count: usize,
    area: &mut [u8],
    namespaces: &[u8],
    log: &[u8],
) -> Replayed
    ensures { Replays namespaces.now log.now count
        (table words.old sums.old area.old)
        (table words.new sums.new area.new) result }
{
    // for the command whose answer is due, and for the characters of a frame
    let mut pending: [u8; 2050] = filled(0);
    let mut line: [u8; 32771] = filled(0);
    let state = Replaying::start(count);
    match feed(
        state,
        words,
        sums,
        area,
        namespaces,
        &mut pending,
        &mut line,
        log,
    ) {
        Some(held) => {
            let verdict = finish(held);
            let rows = held.rows;
            Replayed {
                verdict,
                count: rows,
            }
        },
        None => Replayed {
            verdict: Verdict::Agrees,
            count,
        },
    }
}
