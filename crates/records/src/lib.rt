// Mailboxes as records, lent by the caller (document 02, W4): a record as one number, and the ways in and out.
//
// What works on rows works on numbers, one for a row. `copy_in` makes them of the records, `copy_back` makes records of them.
#![tactic(auto)]

ghost use Rattle.std.specs.Prelude.{◌≡◌, map, ◌-◌, min, length, take, drop, replicate};
ghost use Rattle.std.proofs.Math.Seq.{paste};
ghost use Rattle.records.specs.Words.{word_of, record_of, struct_of, meant};

use octets::filled;

// "records, each with flags, name start and name length", and "a set of eight readers" (W9), bit r for reader r
#[repr(C)]
#[derive(Clone, Copy)]
pub struct Record {
    pub flags: u16,
    pub start: u16,
    pub len: u8,
    pub readers: u8,
}

// "At most 512 rows and 32,768 bytes."
pub const MAX_ROWS: usize = 512;

pub const MAX_BYTES: usize = 32768;

// The record as one number. The number tells the record.
impl From<Record> for u64 {
    ghost from_gives = { λ r w. (w ≡ word_of r) × (record_of w ≡ meant r) };

    fn from(r: Record) -> u64 {
        u64::from(r.flags)
            + 65536 * u64::from(r.start)
            + 4294967296 * u64::from(r.len)
            + 281474976710656 * u64::from(r.readers)
    }
}

// The record of a number.
impl From<u64> for Record {
    ghost from_gives = { λ w r. r ≡ struct_of w };

    fn from(w: u64) -> Record {
        Record {
            flags: (w % 65536) as u16,
            start: (w / 65536 % 65536) as u16,
            len: (w / 4294967296 % 256) as u8,
            readers: (w / 281474976710656 % 256) as u8,
        }
    }
}

// Room for the words of any table that passes.
pub fn no_words() -> [u64; MAX_ROWS]
    ensures { result ≡ replicate 512 0 }
{
    filled(0)
}

// The first words become those of the first records: as many as `count`, the records and the words allow. The other words stay.
pub fn copy_in(records: &[Record], count: usize, words: &mut [u64]) -> usize
    ensures { (result ≡ min count (min (length records.now) (length words.old)))
        × (words.new ≡ paste words.old 0 (map word_of records.now) result)
        × (map record_of (take result words.new) ≡ map meant (take result records.now)) }
{
    let n = count.min(records.len()).min(words.len());
    for i in 0..n {
        words[i] = u64::from(records[i]);
    }
    n
}

// The records from `from` up to `to` become those of the words at the same places, as far as both reach. The other records stay.
pub fn copy_back(records: &mut [Record], from: usize, to: usize, words: &[u64])
    ensures { records.new ≡ paste records.old from (map struct_of (drop from words.now))
        (min to (min (length records.old) (length words.now)) - from) }
{
    let end = to.min(records.len()).min(words.len());
    for i in from..end {
        records[i] = Record::from(words[i]);
    }
}
