// The collector: walks a mailbox table as a client does, by sending commands to the server side and reading its lines back.
//
// The table serves check 1 and the calls of the server side's entry for commands that read, and nothing else: which rows the reader sees is that entry's
// to say. A command is made from the option byte and a pending name, finds and pending names come from the answer and the option byte.
// Who lends the records themselves calls `exports::luspemaro_collect`.
#![tactic(auto)]

mod command;
mod indexed;
mod keeping;
mod lines;
mod options;
mod packed;
mod seen;
mod walk;

ghost use Rattle.std.specs.Prelude.{◌≡◌, true, length, replicate, Err};
ghost use Rattle.octets.specs.Refusals.{numbered};
ghost use Rattle.records.specs.Lent.{words_table, words_seen};
ghost use Rattle.collector.specs.Result.{is_allowed, collected_of, scratch_of, found_of, pending_of, OwesDemand3};

use indexed::collect_index;
use mailbox_table::MAX_READER;
use octets::{Refusal, clear};
pub use packed::collect_packed;
use records::no_words;
use seen::Seen;
use summary::index_summed;

// A walk that came to its end: how many commands were sent, and the length of what lies in found.
#[derive(Clone, Copy)]
pub struct Walked {
    pub count: usize,
    pub found: usize,
}

// The whole walk of a reader. The first `count` words are the rows, each as a number (`word_of` of records/specs), over the area of names, and `sums` the numbers
// of their summary (`summary`). Finds lie at the front of `found` and the names that were asked below at the front of `pending`, zero after them;
// `scratch` takes the answers, and is zero in the end. A refusal zeroes all three.
pub fn collect_words(
    words: &[u64],
    count: usize,
    reader: u8,
    area: &[u8],
    sums: &[u64],
    option: u8,
    scratch: &mut [u8],
    found: &mut [u8],
    pending: &mut [u8],
) -> Result<Walked, Refusal>
    ensures result { numbered result ≡ collected_of reader (words_seen reader words.now count area.now sums.now)
        option scratch.old found.old pending.old }
    ensures scratch { scratch.new ≡ scratch_of reader (words_seen reader words.now count area.now sums.now)
        option scratch.old found.old pending.old }
    ensures found { found.new ≡ found_of reader (words_seen reader words.now count area.now sums.now)
        option scratch.old found.old pending.old }
    ensures pending { pending.new ≡ pending_of reader (words_seen reader words.now count area.now sums.now)
        option scratch.old found.old pending.old }
    ensures demand3 { OwesDemand3 reader (words_table words.now count area.now sums.now)
        (words_seen reader words.now count area.now sums.now)
        option scratch.old found.old pending.old (numbered result) found.new pending.new }
    ensures numbers { is_allowed (numbered result) ≡ true }
{
    if MAX_READER < reader {
        return refuse(Refusal::Reader, scratch, found, pending);
    }
    let mut rows = no_words();
    let Some(n) = index_summed(area, words, count, sums, &mut rows) else {
        return refuse(Refusal::Table, scratch, found, pending);
    };
    let seen = Seen {
        words: &rows[..n],
        area,
        reader,
    };
    collect_index(seen, option, scratch, found, pending)
}

// A refusal, which zeroes the three buffers.
pub(crate) fn refuse(
    refusal: Refusal,
    scratch: &mut [u8],
    found: &mut [u8],
    pending: &mut [u8],
) -> Result<Walked, Refusal>
    ensures { (result ≡ Err refusal)
        × (scratch.new ≡ replicate (length scratch.old) 0)
        × (found.new ≡ replicate (length found.old) 0)
        × (pending.new ≡ replicate (length pending.old) 0) }
{
    clear(scratch);
    clear(found);
    clear(pending);
    Err(refusal)
}
