// The server side: one command over a mailbox table and a namespace list, into an answer buffer, all lent. The table is a run of
// records, each as a number, over an area of name bytes, with a summary beside them; SUBSCRIBE and UNSUBSCRIBE change all three. Who lends the records themselves calls
// `exports::luspemaro_answer`.
//
// Refusals in the papers' order: a reader above 7 16, the table 1, the namespace list 2, the command 3 to 8, an edit from another reader
// than 0 16, an edit 14 and 15, the length of the answer 9.
// An answer is measured before a byte is written, and an edit is decided before it is done, so a refusal changes no byte and no record. An edit makes
// check 1 itself (`subscriptions::edit`); for every other command it is made here.
#![tactic(auto)]

mod asked;
mod edit;
mod packed;
mod reading;
mod replies;

ghost use Rattle.octets.specs.Written.{Gives};
ghost use Rattle.mailbox_table.specs.Index.{Index};
ghost use Rattle.mailbox_table.specs.Seen.{seen_words};
ghost use Rattle.server.specs.Replies.{seen_reply};
ghost use Rattle.server.specs.Edits.{Reading};
ghost use Rattle.server.specs.Answering.{Answers, memory};

use asked::{Asked, Rows};
use command_line::{Command, read_command};
use edit::{edit_line, is_edit, own_edit, unchanged};
use mailbox_table::{MAX_READER, see_rows};
use octets::Refusal;
pub use packed::{is_edit_line, read_packed};
pub use reading::read_words;
use reading::respond;
use records::no_words;
use summary::index_summed;

// What a command comes to: the length of its answer or the number of its refusal, how many words are rows now, and the
// words that changed or moved, `from` up to `to`.
#[derive(Clone, Copy)]
pub struct Stored {
    pub written: Result<usize, Refusal>,
    pub count: usize,
    pub from: usize,
    pub to: usize,
}

// The answer to one command of a reader at the front of `out`. The words are the records, each as a number (`u64::from`), and `sums` the numbers of
// their summary (`summary`): as many records are lent as there are of both. The first `count` of them are the table's rows, over the area of name bytes, and
// the others are spare. SUBSCRIBE and UNSUBSCRIBE change words, summary, area and count; a refusal, and any other command, leaves them. A row changed exactly
// if `from` is below `to`.
pub fn answer_words(
    words: &mut [u64],
    sums: &mut [u64],
    count: usize,
    reader: u8,
    area: &mut [u8],
    namespaces: &[u8],
    line: &[u8],
    out: &mut [u8],
) -> Stored
    ensures { Answers (memory words.old sums.old area.old out.old)
        (memory words.new sums.new area.new out.new)
        count reader namespaces.now line.now result }
{
    if MAX_READER < reader {
        return unchanged(Err(Refusal::Reader), count);
    }
    let read = read_command(line);
    if let Some(command) = own_edit(read, reader, namespaces) {
        return edit_line(words, sums, count, area, Asked { line, command }, out);
    }
    let mut rows = no_words();
    let n = words.len().min(sums.len());
    let Some(m) = index_summed(area, &words[..n], count, &sums[..n], &mut rows) else {
        return unchanged(Err(Refusal::Table), count);
    };
    let written = answer_read(area, &mut rows[..m], reader, namespaces, line, read, out);
    unchanged(written, count)
}

// The refusals 2 to 9 over the index of a table that passes, of a line that changes nothing. An edit that comes here is of another
// reader than 0.
fn answer_read(
    area: &[u8],
    index: &mut [u64],
    reader: u8,
    namespaces: &[u8],
    line: &[u8],
    read: Result<Command, Refusal>,
    out: &mut [u8],
) -> Result<usize, Refusal>
    requires index { Index area.now index.old }
    requires reads { Reading line.now read }
    ensures { Gives
        (seen_reply area.now (seen_words reader index.old) namespaces.now line.now)
        out.old out.new result }
{
    if !namespace_list::check(namespaces) {
        return Err(Refusal::Namespaces);
    }
    let command = read?;
    if is_edit(command.kind) {
        return Err(Refusal::Reader);
    }
    let seen = see_rows(index, reader);
    let rows = Rows {
        area,
        words: &index[..seen],
    };
    respond(rows, namespaces, Asked { line, command }, out)
}
