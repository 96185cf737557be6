// The packed form of the walk.
ghost use Rattle.std.specs.Prelude.{◌≡◌, true};
ghost use Rattle.octets.specs.Refusals.{numbered};
ghost use Rattle.listing_rules.specs.Table.{packed_table};
ghost use Rattle.listing_rules.specs.Readers.{packed_seen};
ghost use Rattle.collector.specs.Result.{is_allowed, collected_of, scratch_of, found_of, pending_of, OwesDemand3};

use super::indexed::collect_index;
use super::seen::Seen;
use super::{Walked, refuse};
use mailbox_table::{MAX_READER, index};
use octets::Refusal;
use records::no_words;

// The walk of a reader over a packed table, which has no summary; else as `collect_words`.
pub fn collect_packed(
    table: &[u8],
    reader: u8,
    option: u8,
    scratch: &mut [u8],
    found: &mut [u8],
    pending: &mut [u8],
) -> Result<Walked, Refusal>
    ensures result { numbered result ≡ collected_of reader (packed_seen reader table.now)
        option scratch.old found.old pending.old }
    ensures scratch { scratch.new ≡ scratch_of reader (packed_seen reader table.now)
        option scratch.old found.old pending.old }
    ensures found { found.new ≡ found_of reader (packed_seen reader table.now)
        option scratch.old found.old pending.old }
    ensures pending { pending.new ≡ pending_of reader (packed_seen reader table.now)
        option scratch.old found.old pending.old }
    ensures demand3 { OwesDemand3 reader (packed_table table.now) (packed_seen reader table.now)
        option scratch.old found.old pending.old (numbered result) found.new pending.new }
    ensures numbers { is_allowed (numbered result) ≡ true }
{
    if MAX_READER < reader {
        return refuse(Refusal::Reader, scratch, found, pending);
    }
    let mut rows = no_words();
    let Some(n) = index(table, &mut rows) else {
        return refuse(Refusal::Table, scratch, found, pending);
    };
    let seen = Seen {
        words: &rows[..n],
        area: table,
        reader,
    };
    collect_index(seen, option, scratch, found, pending)
}
