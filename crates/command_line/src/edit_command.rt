// What stands after the words SUBSCRIBE and UNSUBSCRIBE: one mailbox name. Whether the name is lawful is not asked here.

ghost use Rattle.std.specs.Prelude.{drop};
ghost use Rattle.listing_rules.specs.Command.{name_arg};
ghost use Rattle.command_line.specs.Commands.{NameRead};

use crate::reading::named;
use crate::{Command, Kind};
use command_tokens::{Cursor, Span};
use octets::Refusal;

// edit = ("SUBSCRIBE" / "UNSUBSCRIBE") SP astring, after the word, which the kind tells
pub(crate) fn read_edit(
    text: &[u8],
    kind: Kind,
    tag: Span,
    first: Cursor,
) -> Result<Command, Refusal>
    ensures { NameRead text.now kind tag (name_arg (drop first.at text.now)) result }
{
    let (name, rest) = first.argument(text).ok_or(Refusal::Grammar)?;
    if rest.at < text.len() {
        return Err(Refusal::Grammar);
    }
    Ok(named(kind, tag, name))
}
