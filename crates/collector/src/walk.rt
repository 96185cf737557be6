// The walk: the first command, then one below each pending name, in order.
ghost use Rattle.std.specs.Prelude.{◌≡◌, [], ◌∷◌, ◌++◌, ◌≤◌, length, replicate};
ghost use Rattle.listing_rules.specs.Bytes.{slash};
ghost use Rattle.listing_rules.specs.Walk.{collected};
ghost use Rattle.collector.specs.Held.{held_seen};
ghost use Rattle.collector.specs.Names.{Lies, name_at};
ghost use Rattle.collector.specs.Options.{byte_of};
ghost use Rattle.collector.specs.Rooms.{reference_room};
ghost use Rattle.collector.specs.Taking.{Inside, TakesCommand};
ghost use Rattle.collector.specs.Walking.{Walking};
ghost use Rattle.collector.specs.Ends.{Ends};

use super::Walked;
use super::command::{COMMAND_ROOM, REFERENCE_ROOM, put_below, put_command};
use super::lines::{Progress, take_lines};
use super::options::WalkOptions;
use super::seen::Seen;
use octets::{Refusal, filled};
use server::read_words;

// Where a name lies in pending: its first byte, and the place after its last.
#[derive(Clone, Copy)]
pub(crate) struct NamePlace {
    pub from: usize,
    pub end: usize,
}

// Walks a table for the reader that sees it. Found and pending are zero.
pub(crate) fn walk_table(
    seen: Seen,
    options: WalkOptions,
    scratch: &mut [u8],
    found: &mut [u8],
    pending: &mut [u8],
) -> Result<Walked, Refusal>
    requires found_value { found.old ≡ replicate (length found.old) 0 }
    requires pending_value { pending.old ≡ replicate (length pending.old) 0 }
    ensures { Ends
        (collected (held_seen seen.entry.reader seen.entry.area.now seen.entry.words.now) (byte_of options) scratch.old found.old pending.old)
        found.new pending.new result }
{
    let first = ask(seen, options, Progress::NONE, &[], scratch, found, pending)?;
    ask_pending(seen, options, first, scratch, found, pending)
}

// Asks below each name of pending, in order; names that are put there meanwhile come in their turn, so no `for` or iterator knows the end.
fn ask_pending(
    seen: Seen,
    options: WalkOptions,
    start: Progress,
    scratch: &mut [u8],
    found: &mut [u8],
    pending: &mut [u8],
) -> Result<Walked, Refusal>
    requires walking { Walking (held_seen seen.reader seen.area.now seen.words.now) options (length scratch.old) (length found.old) (length pending.old)
        scratch.old found.old pending.old start 0 }
    ensures { Ends
        (collected (held_seen seen.entry.reader seen.entry.area.now seen.entry.words.now) (byte_of options)
        scratch.old found.old pending.old)
        found.new pending.new result }
{
    let mut progress = start;
    let mut at = 0;
    while at < progress.pending {
        let from = at + 1;
        let end = from + usize::from(pending[at]);
        let name = NamePlace { from, end };
        progress = ask_below(seen, options, progress, name, scratch, found, pending)?;
        at = end;
    }
    Ok(Walked {
        count: progress.count,
        found: progress.found,
    })
}

// The command below a name of pending.
fn ask_below(
    seen: Seen,
    options: WalkOptions,
    start: Progress,
    name: NamePlace,
    scratch: &mut [u8],
    found: &mut [u8],
    pending: &mut [u8],
) -> Result<Progress, Refusal>
    requires lies { Lies name pending.old }
    requires inside { Inside found.old pending.old start }
    requires count_in_bounds { start.count ≤ length pending.old }
    ensures { TakesCommand (held_seen seen.entry.reader seen.entry.area.now seen.entry.words.now) options
        (name_at name pending.old ++ (slash ∷ [])) scratch.old start
        found.old pending.old found.new pending.new result }
{
    let from = name.from;
    let end = name.end;
    let mut reference: [u8; REFERENCE_ROOM] = filled(0);
    let n = put_below(&mut reference, &pending[from..end]);
    ask(
        seen,
        options,
        start,
        &reference[..n],
        scratch,
        found,
        pending,
    )
}

// Sends the command with this reference and takes its answer in. Here alone the server side is called, and here alone the
// count grows.
fn ask(
    seen: Seen,
    options: WalkOptions,
    start: Progress,
    reference: &[u8],
    scratch: &mut [u8],
    found: &mut [u8],
    pending: &mut [u8],
) -> Result<Progress, Refusal>
    requires reference_len_bound { length reference.now ≤ reference_room }
    requires inside { Inside found.old pending.old start }
    requires count_in_bounds { start.count ≤ length pending.old }
    ensures { TakesCommand (held_seen seen.entry.reader seen.entry.area.now seen.entry.words.now) options
        reference.now scratch.old start
        found.old pending.old found.new pending.new result }
{
    let mut line: [u8; COMMAND_ROOM] = filled(0);
    let n = put_command(&mut line, options, reference);
    let Ok(len) = read_words(
        seen.words,
        seen.words.len(),
        seen.reader,
        seen.area,
        &[],
        &line[..n],
        scratch,
    ) else {
        return Err(Refusal::ShortBuffer);
    };
    let count = start.count + 1;
    let sent = Progress { count, ..start };
    take_lines(&scratch[..len], options, found, pending, sent)
}
