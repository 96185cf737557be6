// SUBSCRIBE and UNSUBSCRIBE: the name of the line put into a buffer and spelled there, then edited.
ghost use Rattle.std.specs.Prelude.{◌≡◌, true, ◌≤◌, length};
ghost use Rattle.listing_rules.specs.Subscriptions.{spelled};
ghost use Rattle.command_line.specs.Commands.{name_of};
ghost use Rattle.server.specs.Answering.{AnswersEdit, memory};
ghost use Rattle.server.specs.Edits.{Fronts, edit_kind, subscribe_kind, own_edit};

use super::Stored;
use super::asked::Asked;
use super::replies::ok_fits;
use command_line::{Command, Kind, put_name};
use command_tokens::raw;
use list_line::put_ok_line;
use names::spell;
use octets::{Refusal, filled};
use subscriptions::edit;

// Room for the name of any command line.
const NAME_ROOM: usize = 2048;

// A command that left the words as they were.
pub(crate) fn unchanged(written: Result<usize, Refusal>, count: usize) -> Stored
    ensures { result ≡ record { written = written; count = count; from = 0; to = 0 } }
{
    Stored {
        written,
        count,
        from: 0,
        to: 0,
    }
}

pub(crate) fn is_edit(kind: Kind) -> bool
    ensures { result ≡ edit_kind kind }
{
    matches!(kind, Kind::Subscribe | Kind::Unsubscribe)
}

fn is_subscribe(kind: Kind) -> bool
    ensures { result ≡ subscribe_kind kind }
{
    matches!(kind, Kind::Subscribe)
}

// The edit that its reader may make, beside a namespace list that passes: "edits are allowed to reader 0 only".
pub(crate) fn own_edit(
    read: Result<Command, Refusal>,
    reader: u8,
    namespaces: &[u8],
) -> Option<Command>
    ensures { result ≡ own_edit read reader namespaces.now }
{
    let Ok(command) = read else {
        return None;
    };
    if reader != 0 {
        return None;
    }
    if !is_edit(command.kind) {
        return None;
    }
    if !namespace_list::check(namespaces) {
        return None;
    }
    Some(command)
}

// The name of an edit, spelled, at the front of `name`, and its length.
fn put_spelled(asked: Asked, name: &mut [u8]) -> usize
    requires { length (name_of asked.line.now asked.command) ≤ length name.old }
    ensures { Fronts (spelled (name_of asked.entry.line.now asked.entry.command)) name.new result }
{
    let end = put_name(asked.line, asked.command, name);
    spell(&mut name[..end]);
    end
}

// The edit of a line that was read, for reader 0 and beside any namespace list that passes: 1, 14, 15 and 9, all before any change.
pub(crate) fn edit_line(
    words: &mut [u64],
    sums: &mut [u64],
    count: usize,
    area: &mut [u8],
    asked: Asked,
    out: &mut [u8],
) -> Stored
    requires { edit_kind asked.command.kind ≡ true }
    ensures { AnswersEdit (memory words.old sums.old area.old out.old)
        (memory words.new sums.new area.new out.new) count asked.entry.line.now result }
{
    let mut name: [u8; NAME_ROOM] = filled(0);
    let n = put_spelled(asked, &mut name);
    let subscribe = is_subscribe(asked.command.kind);
    let tag = raw(asked.line, asked.command.tag);
    let fits = ok_fits(tag, out.len());
    match edit(words, sums, count, area, subscribe, &name[..n], fits) {
        Err(refusal) => unchanged(Err(refusal), count),
        Ok(change) => {
            let end = put_ok_line(out, 0, tag);
            Stored {
                written: Ok(end),
                count: change.count,
                from: change.from,
                to: change.to,
            }
        },
    }
}
