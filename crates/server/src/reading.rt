// Commands that only read.
ghost use Rattle.std.specs.Prelude.{map};
ghost use Rattle.listing_rules.specs.Readers.{records_seen};
ghost use Rattle.records.specs.Words.{record_of};
ghost use Rattle.octets.specs.Written.{Gives};
ghost use Rattle.mailbox_table.specs.Index.{Index};
ghost use Rattle.mailbox_table.specs.Seen.{seen_words};
ghost use Rattle.server.specs.Replies.{command_reply, index_reply, read_to};

use super::asked::{Asked, Rows};
use super::replies::{write_listing, write_namespaces, write_root, write_subscriptions};
use command_line::{Kind, read_command};
use command_tokens::raw;
use mailbox_table::{MAX_READER, index_words, see_rows};
use octets::Refusal;
use records::no_words;

// A reader's command over words that are lent for reading, of which the first `count` are rows: LIST, LSUB and NAMESPACE, over the rows that the reader
// sees. An edit has nothing to change here, and its word is refused with 5.
pub fn read_words(
    words: &[u64],
    count: usize,
    reader: u8,
    area: &[u8],
    namespaces: &[u8],
    line: &[u8],
    out: &mut [u8],
) -> Result<usize, Refusal>
    ensures { Gives
        (read_to reader (records_seen reader area.now (map record_of words.now) count) namespaces.now line.now)
        out.old out.new result }
{
    if MAX_READER < reader {
        return Err(Refusal::Reader);
    }
    let mut rows = no_words();
    let n = index_words(area, words, count, &mut rows).ok_or(Refusal::Table)?;
    read_seen(area, &mut rows[..n], reader, namespaces, line, out)
}

// The refusals 2 to 9 over the index of a table that passes, of which only the rows that the reader sees are left.
pub(crate) fn read_seen(
    area: &[u8],
    index: &mut [u64],
    reader: u8,
    namespaces: &[u8],
    line: &[u8],
    out: &mut [u8],
) -> Result<usize, Refusal>
    requires { Index area.now index.old }
    ensures { Gives
        (index_reply area.now (seen_words reader index.old) namespaces.now line.now)
        out.old out.new result }
{
    let seen = see_rows(index, reader);
    let rows = Rows {
        area,
        words: &index[..seen],
    };
    read_index(rows, namespaces, line, out)
}

// The refusals 2 to 9, over the index of a table that passes.
fn read_index(rows: Rows, namespaces: &[u8], line: &[u8], out: &mut [u8]) -> Result<usize, Refusal>
    ensures { Gives
        (index_reply rows.entry.area.now rows.entry.words.now namespaces.now line.now)
        out.old out.new result }
{
    if !namespace_list::check(namespaces) {
        return Err(Refusal::Namespaces);
    }
    let command = read_command(line)?;
    respond(rows, namespaces, Asked { line, command }, out)
}

// The answer to a command that was read, where the namespace list passes too: 9 where it is too long. An edit is refused with 5.
pub(crate) fn respond(
    rows: Rows,
    namespaces: &[u8],
    asked: Asked,
    out: &mut [u8],
) -> Result<usize, Refusal>
    ensures { Gives
        (command_reply rows.entry.area.now rows.entry.words.now namespaces.now asked.entry.line.now)
        out.old out.new result }
{
    let tag = raw(asked.line, asked.command.tag);
    match asked.command.kind {
        Kind::Namespace => write_namespaces(namespaces, tag, out),
        Kind::Root => write_root(tag, out),
        Kind::List => write_listing(rows, asked, tag, out),
        Kind::Lsub => write_subscriptions(rows, asked, tag, out),
        Kind::Subscribe | Kind::Unsubscribe => Err(Refusal::Word),
    }
}
