// The walk over the index of a table that passes.
ghost use Rattle.std.specs.Prelude.{◌≡◌, length, replicate};
ghost use Rattle.listing_rules.specs.Walk.{collected};
ghost use Rattle.collector.specs.Held.{held_seen};
ghost use Rattle.collector.specs.Ends.{Collects, Ends};

use super::Walked;
use super::options::WalkOptions;
use super::seen::Seen;
use super::walk::walk_table;
use octets::{Refusal, clear};

// The walk over the index of a table that passes. What it leaves in the three buffers is what `collect_words` promises.
// The buffers go down apart: of a struct behind a reference each contract would also have to say that they stay the same memory, of the same lengths.
pub(crate) fn collect_index(
    seen: Seen,
    option: u8,
    scratch: &mut [u8],
    found: &mut [u8],
    pending: &mut [u8],
) -> Result<Walked, Refusal>
    ensures { Collects seen.entry.reader (held_seen seen.entry.reader seen.entry.area.now seen.entry.words.now)
        option scratch.old found.old pending.old
        result scratch.new found.new pending.new }
{
    clear(found);
    clear(pending);
    let result = run(seen, option, scratch, found, pending);
    clear(scratch);
    if let Err(refusal) = result {
        clear(found);
        clear(pending);
        return Err(refusal);
    }
    result
}

// Refusal 6, then the walk. Found and pending are zero; a refusal leaves them anyhow.
fn run(
    seen: Seen,
    option: u8,
    scratch: &mut [u8],
    found: &mut [u8],
    pending: &mut [u8],
) -> Result<Walked, Refusal>
    requires found_value { found.old ≡ replicate (length found.old) 0 }
    requires pending_value { pending.old ≡ replicate (length pending.old) 0 }
    ensures { Ends (collected (held_seen seen.entry.reader seen.entry.area.now seen.entry.words.now) option
        scratch.old found.old pending.old) found.new pending.new result }
{
    let options = WalkOptions::try_from(option)?;
    walk_table(seen, options, scratch, found, pending)
}
