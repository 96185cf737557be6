// The lines of an answer, taken in: finds to found, names with CHILDINFO to pending.
ghost use Rattle.std.specs.Prelude.{◌≡◌};
ghost use Rattle.listing_rules.specs.Walk.{is_find};
ghost use Rattle.list_line.specs.Members.{members};
ghost use Rattle.collector.specs.Options.{byte_of};
ghost use Rattle.collector.specs.Taking.{Inside, TakesLine, TakesAnswer};

use super::keeping::keep;
use super::options::WalkOptions;
use line_reader::read_line;
use list_line::Attributes;
use octets::{LF, Members, Refusal};

// How far a walk is: the commands sent, and the lengths of what lies in found and in pending.
#[derive(Clone, Copy)]
pub(crate) struct Progress {
    pub count: usize,
    pub found: usize,
    pub pending: usize,
}

impl Progress {
    // Before the first command.
    pub(crate) const NONE: Progress = Progress {
        count: 0,
        found: 0,
        pending: 0,
    };
}

// The seven uses.
const USES: Attributes = Attributes {
    bits: Attributes::ALL.bits
        | Attributes::ARCHIVE.bits
        | Attributes::DRAFTS.bits
        | Attributes::FLAGGED.bits
        | Attributes::JUNK.bits
        | Attributes::SENT.bits
        | Attributes::TRASH.bits,
};

// Every line of an answer, in order.
pub(crate) fn take_lines(
    answer: &[u8],
    options: WalkOptions,
    found: &mut [u8],
    pending: &mut [u8],
    start: Progress,
) -> Result<Progress, Refusal>
    requires { Inside found.old pending.old start }
    ensures { TakesAnswer options answer.now start
        found.old pending.old found.new pending.new result }
{
    let mut progress = start;
    for line in answer.split_inclusive(|b| *b == LF) {
        progress = take_line(line, options, found, pending, progress)?;
    }
    Ok(progress)
}

// One line. What is no LIST line, as the tagged line at the end, adds nothing; nor does the root line.
fn take_line(
    line: &[u8],
    options: WalkOptions,
    found: &mut [u8],
    pending: &mut [u8],
    start: Progress,
) -> Result<Progress, Refusal>
    requires { Inside found.old pending.old start }
    ensures { TakesLine options line.now start
        found.old pending.old found.new pending.new result }
{
    let Ok(parts) = read_line(line) else {
        return Ok(start);
    };
    let name = &parts.name[..parts.len];
    let find = is_find(options, parts.attributes);
    let parent = !parts.criteria.is_none();
    let found_end = keep(find, found, start.found, name).ok_or(Refusal::FoundFull)?;
    let pending_end = keep(parent, pending, start.pending, name).ok_or(Refusal::PendingFull)?;
    Ok(Progress {
        count: start.count,
        found: found_end,
        pending: pending_end,
    })
}

// A find has \Subscribed unless SUBSCRIBED was dropped, no \Remote unless REMOTE was asked, and a use if SPECIAL-USE was.
fn is_find(options: WalkOptions, attributes: Attributes) -> bool
    ensures { result ≡ is_find (byte_of options) (members attributes.bits) }
{
    let subscribed = !options.subscribed() | attributes.has(Attributes::SUBSCRIBED);
    let near = !attributes.has(Attributes::REMOTE) | options.remote;
    let used = !options.special_use() | attributes.has_some(USES);
    subscribed & near & used
}
