// The packed table turned into the records that the program keeps: "512 records, names at first in row order without gaps from the
// start of 16,384 bytes", the others zero; and the place of records and summary in the numbers that are lent.
ghost use Rattle.std.specs.Prelude.{◌≡◌, map, ◌≤◌, length, take, drop};
ghost use Rattle.std.proofs.lemmas.List.Edits.{sets};
ghost use Rattle.listing_rules.specs.Lists.{joined};
ghost use Rattle.listing_rules.specs.Table.{names};
ghost use Rattle.listing_rules.specs.Frames.{records_from};
ghost use Rattle.records.specs.Words.{record_of, cell_of};
ghost use Rattle.mailbox_table.specs.Index.{rows_at};
ghost use Rattle.kept_table.specs.Kept.{numbers_with};
ghost use Rattle.kept_table.specs.Laying.{Short, Inside, Blank, Lays};

use mailbox_table::rows::{Row, name_of};
use mailbox_table::{index, readers_of};
use octets::put_all;
use records::{MAX_ROWS, Record, no_words};

// "512 records", and after them the 512 numbers of their summary.
pub const MAX_NUMBERS: usize = 1024;

// The store of the packed table's rows: their records in the words, their names in the area, all of it zero before. It fails where the
// table does not pass.
pub(crate) fn lay_out(table: &[u8], words: &mut [u64], area: &mut [u8]) -> Option<usize>
    requires { Blank table.now words.old area.old }
    ensures { Lays table.now words.new area.new result }
{
    let n = index(table, words)?;
    place_names(table, &mut words[..n], area);
    Some(n)
}

// The names of an index one after the other, from the area's first byte on; each word becomes the record of its row there.
fn place_names(table: &[u8], words: &mut [u64], area: &mut [u8])
    requires { Short (rows_at table.now words.old) × Inside table.now words.old }
    ensures { (map record_of words.new ≡ records_from 0 (map record_of words.old))
        × (area.new ≡ sets area.old 0 (joined (names (rows_at table.now words.old))))
        × (words.new ≡ map cell_of (records_from 0 (map record_of words.old))) }
{
    let mut at = 0;
    for i in 0..words.len() {
        let row = Row::of_word(words[i]);
        let name = name_of(table, row);
        let readers = readers_of(words[i]);
        words[i] = u64::from(Record {
            flags: row.flags.bits,
            start: at as u16,
            len: name.len() as u8,
            readers: readers.bits,
        });
        at = put_all(area, at, name);
    }
}

// The store kept from now on: the names in the first bytes of the table's area, the records and their summary in the first numbers lent for them.
pub(crate) fn keep_store(
    table: &mut [u8],
    records: &mut [u64],
    area: &[u8],
    words: &[u64],
    sums: &[u64],
)
    requires { (length words.now ≡ 512) × (length sums.now ≡ 512) × (1024 ≤ length records.old) }
    ensures { (table.new ≡ sets table.old 0 area.now)
        × (records.new ≡ numbers_with words.now sums.now records.old) }
{
    put_all(table, 0, area);
    records[..MAX_ROWS].copy_from_slice(words);
    keep_sums(records, sums);
}

// The summary that is kept, which lies after the records.
pub(crate) fn kept_sums(records: &[u64]) -> [u64; MAX_ROWS]
    requires { 1024 ≤ length records.now }
    ensures { result ≡ take 512 (drop 512 records.now) }
{
    let mut sums = no_words();
    sums.copy_from_slice(&records[MAX_ROWS..MAX_NUMBERS]);
    sums
}

// Another summary kept there.
pub(crate) fn keep_sums(records: &mut [u64], sums: &[u64])
    requires { (length sums.now ≡ 512) × (1024 ≤ length records.old) }
    ensures { records.new ≡ numbers_with (take 512 records.old) sums.now records.old }
{
    records[MAX_ROWS..MAX_NUMBERS].copy_from_slice(sums);
}
