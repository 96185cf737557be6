// A command carried out: over the packed bytes, or over the records that they become at the first accepted edit.
ghost use Rattle.std.specs.Prelude.{◌≡◌, true, false, ◌≤◌, length};
ghost use Rattle.listing_rules.specs.Command.{is_edit, parsed};
ghost use Rattle.listing_rules.specs.Frames.{bytes};
ghost use Rattle.octets.specs.Refusals.{numbered};
ghost use Rattle.kept_table.specs.Kept.{lent, Within, Says};
ghost use Rattle.kept_table.specs.Commanding.{command_line, written_line, Fits, Obeys, ObeysLent};

use crate::Lengths;
use crate::outcome::{MAX_TABLE, Outcome, said, with_records};
use crate::sizes::is_within;
use crate::store::{keep_store, keep_sums, kept_sums, lay_out};
use frames::{ANSWER, put_line, put_refusal};
use mailbox_table::MAX_READER;
use octets::{Refusal, filled};
use records::{MAX_ROWS, no_words};
use server::{answer_words, is_edit_line, read_packed};
use summary::summarize_words;

// A reader's command, beside the namespace list and how much is stored.
#[derive(Clone, Copy)]
struct Asked<'a> {
    stored: Lengths,
    reader: u8,
    command: &'a [u8],
    namespaces: &'a [u8],
}

// The line of an answer that lies at the front of its buffer, or of a refusal.
fn put_reply(written: Result<usize, Refusal>, answer: &[u8], out: &mut [u8]) -> usize
    requires { Fits (numbered written) answer.now }
    ensures { Says (written_line (numbered written) answer.now) out.old out.new result }
{
    match written {
        Ok(n) => put_line(out, 0, ANSWER, &answer[..n]),
        Err(refusal) => put_refusal(out, 0, refusal.number()),
    }
}

// A reader's command over what is kept. Where that does not lie within the memory, nothing is done, and no line is written.
pub fn obey(
    stored: Lengths,
    reader: u8,
    command: &[u8],
    table: &mut [u8],
    records: &mut [u64],
    namespaces: &[u8],
    out: &mut [u8],
) -> Outcome
    ensures { ObeysLent stored reader command.now
        (lent table.old records.old namespaces.now out.old)
        (lent table.new records.new namespaces.now out.new) result }
{
    let within = is_within(stored, table.len(), records.len(), namespaces.len());
    if !within {
        return said(stored, 0);
    }
    let asked = Asked {
        stored,
        reader,
        command,
        namespaces,
    };
    obey_within(asked, table, records, out)
}

// A command over what lies within the memory, of which the parts go down apart: of a struct behind a reference each contract would also have to say
// that they stay the same memory, of the same lengths.
fn obey_within(asked: Asked, table: &mut [u8], records: &mut [u64], out: &mut [u8]) -> Outcome
    requires { Within asked.stored table.old records.old asked.namespaces.now }
    ensures { Obeys asked.entry.stored asked.entry.reader asked.entry.command.now
        (lent table.old records.old asked.entry.namespaces.now out.old)
        (lent table.new records.new asked.entry.namespaces.now out.new) result }
{
    let stored = asked.stored;
    if stored.edited {
        return obey_records(asked, table, records, out);
    }
    if is_edit_line(asked.command) {
        return first_edit(asked, table, records, out);
    }
    let rows = stored.table;
    let entries = stored.namespaces;
    let spaces = &asked.namespaces[..entries];
    let written = read_line(&table[..rows], asked.reader, spaces, asked.command, out);
    said(stored, written)
}

// A command that is no edit, over the packed bytes.
fn read_line(table: &[u8], reader: u8, namespaces: &[u8], command: &[u8], out: &mut [u8]) -> usize
    requires command_value { is_edit (parsed command.now) ≡ false }
    requires table_len_bound { length table.now ≤ 16384 }
    ensures { Says (command_line reader (bytes table.now) namespaces.now command.now)
        out.old out.new result }
{
    let mut answer: [u8; MAX_TABLE] = filled(0);
    let written = read_packed(table, reader, namespaces, command, &mut answer);
    put_reply(written, &answer, out)
}

// A command over the records and their summary.
fn obey_records(asked: Asked, table: &mut [u8], records: &mut [u64], out: &mut [u8]) -> Outcome
    requires within { Within asked.stored table.old records.old asked.namespaces.now }
    requires edited_value { asked.stored.edited ≡ true }
    ensures { Obeys asked.entry.stored asked.entry.reader asked.entry.command.now
        (lent table.old records.old asked.entry.namespaces.now out.old)
        (lent table.new records.new asked.entry.namespaces.now out.new) result }
{
    let stored = asked.stored;
    let count = stored.table;
    let entries = stored.namespaces;
    let mut sums = kept_sums(records);
    let mut answer: [u8; MAX_TABLE] = filled(0);
    let done = answer_words(
        &mut records[..MAX_ROWS],
        &mut sums,
        count,
        asked.reader,
        &mut table[..MAX_TABLE],
        &asked.namespaces[..entries],
        asked.command,
        &mut answer,
    );
    keep_sums(records, &sums);
    let reply = done.written;
    let written = put_reply(reply, &answer, out);
    with_records(stored, done.count, written)
}

// An edit over the packed bytes: judged on the store that they become, with its first summary; both are kept if the edit is accepted.
fn first_edit(asked: Asked, table: &mut [u8], records: &mut [u64], out: &mut [u8]) -> Outcome
    requires within { Within asked.stored table.old records.old asked.namespaces.now }
    requires edited_value { (asked.stored.edited ≡ false) × (is_edit (parsed asked.command.now) ≡ true) }
    ensures { Obeys asked.entry.stored asked.entry.reader asked.entry.command.now
        (lent table.old records.old asked.entry.namespaces.now out.old)
        (lent table.new records.new asked.entry.namespaces.now out.new) result }
{
    let stored = asked.stored;
    if MAX_READER < asked.reader {
        return said(stored, put_refusal(out, 0, Refusal::Reader.number()));
    }
    let rows = stored.table;
    let entries = stored.namespaces;
    let mut words = no_words();
    let mut area: [u8; MAX_TABLE] = filled(0);
    let Some(count) = lay_out(&table[..rows], &mut words, &mut area) else {
        return said(stored, put_refusal(out, 0, Refusal::Table.number()));
    };
    let mut sums = no_words();
    let _ = summarize_words(&words, count, &area, &mut sums);
    let mut answer: [u8; MAX_TABLE] = filled(0);
    let made = answer_words(
        &mut words,
        &mut sums,
        count,
        asked.reader,
        &mut area,
        &asked.namespaces[..entries],
        asked.command,
        &mut answer,
    );
    let reply = made.written;
    let written = put_reply(reply, &answer, out);
    if reply.is_err() {
        return said(stored, written);
    }
    keep_store(table, records, &area, &words, &sums);
    with_records(stored, made.count, written)
}
