// A reader's walk over what is kept, and its line.
ghost use Rattle.std.specs.Prelude.{◌≡◌, cond, []};
ghost use Rattle.listing_rules.specs.Walk.{walk_by};
ghost use Rattle.listing_rules.specs.Frames.{kept_seen, walk_line};
ghost use Rattle.octets.specs.Refusals.{numbered};
ghost use Rattle.collector.specs.Result.{collected_of, found_of};
ghost use Rattle.kept_table.specs.Kept.{kept_of, Held, is_held, Says};

use crate::Lengths;
use crate::outcome::MAX_TABLE;
use crate::sizes::is_held;
use crate::store::MAX_NUMBERS;
use collector::{Walked, collect_packed, collect_words};
use frames::{put_refusal, put_walk};
use octets::{Refusal, filled};
use records::MAX_ROWS;

// "found and pending 8,192 each".
const MAX_FOUND: usize = 8192;

// The line of a walk: the number of commands and what was found, or the number of its refusal. Where what is kept does not lie within the
// memory, none is written.
pub fn walk_line(
    stored: Lengths,
    reader: u8,
    table: &[u8],
    records: &[u64],
    option: u8,
    out: &mut [u8],
) -> usize
    ensures { Says (cond (is_held stored table.now records.now)
        (walk_line (walk_by reader (kept_seen reader (kept_of stored table.now records.now)) option 16384 8192 8192)) [])
        out.old out.new result }
{
    let held = is_held(stored, table.len(), records.len());
    if !held {
        return 0;
    }
    walk_held(stored, reader, table, records, option, out)
}

// The line of a walk over what lies within the memory.
fn walk_held(
    stored: Lengths,
    reader: u8,
    table: &[u8],
    records: &[u64],
    option: u8,
    out: &mut [u8],
) -> usize
    requires { Held stored table.now records.now }
    ensures { Says (walk_line (walk_by reader (kept_seen reader (kept_of stored table.now records.now)) option 16384 8192 8192))
        out.old out.new result }
{
    let mut scratch: [u8; MAX_TABLE] = filled(0);
    let mut found: [u8; MAX_FOUND] = filled(0);
    let mut pending: [u8; MAX_FOUND] = filled(0);
    match collect_kept(
        stored,
        reader,
        table,
        records,
        option,
        &mut scratch,
        &mut found,
        &mut pending,
    ) {
        Ok(walked) => put_walk(out, 0, walked.count, &found[..walked.found]),
        Err(refusal) => put_refusal(out, 0, refusal.number()),
    }
}

// The collector over the packed bytes, or over the records.
fn collect_kept(
    stored: Lengths,
    reader: u8,
    table: &[u8],
    records: &[u64],
    option: u8,
    scratch: &mut [u8],
    found: &mut [u8],
    pending: &mut [u8],
) -> Result<Walked, Refusal>
    requires { Held stored table.now records.now }
    ensures result { numbered result ≡ collected_of reader (kept_seen reader (kept_of stored table.now records.now))
        option scratch.old found.old pending.old }
    ensures found { found.new ≡ found_of reader (kept_seen reader (kept_of stored table.now records.now))
        option scratch.old found.old pending.old }
{
    let rows = stored.table;
    if stored.edited {
        let words = &records[..MAX_ROWS];
        let sums = &records[MAX_ROWS..MAX_NUMBERS];
        return collect_words(
            words,
            rows,
            reader,
            &table[..MAX_TABLE],
            sums,
            option,
            scratch,
            found,
            pending,
        );
    }
    collect_packed(&table[..rows], reader, option, scratch, found, pending)
}
