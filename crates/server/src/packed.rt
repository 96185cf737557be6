// The packed form of a command, for the program of frames.
ghost use Rattle.std.specs.Prelude.{◌≡◌};
ghost use Rattle.listing_rules.specs.Command.{is_edit, parsed};
ghost use Rattle.listing_rules.specs.Readers.{packed_seen};
ghost use Rattle.octets.specs.Written.{Gives};
ghost use Rattle.server.specs.Replies.{read_to};

use super::edit::is_edit;
use super::reading::read_seen;
use command_line::read_command;
use mailbox_table::{MAX_READER, index};
use octets::Refusal;
use records::no_words;

// Whether the line is SUBSCRIBE or UNSUBSCRIBE, read to its end.
pub fn is_edit_line(line: &[u8]) -> bool
    ensures { result ≡ is_edit (parsed line.now) }
{
    let Ok(command) = read_command(line) else {
        return false;
    };
    is_edit(command.kind)
}

// A reader's command over a packed table, which has no records to change: as `read_words`.
pub fn read_packed(
    table: &[u8],
    reader: u8,
    namespaces: &[u8],
    line: &[u8],
    out: &mut [u8],
) -> Result<usize, Refusal>
    ensures { Gives (read_to reader (packed_seen reader table.now) namespaces.now line.now)
        out.old out.new result }
{
    if MAX_READER < reader {
        return Err(Refusal::Reader);
    }
    let mut words = no_words();
    let n = index(table, &mut words).ok_or(Refusal::Table)?;
    read_seen(table, &mut words[..n], reader, namespaces, line, out)
}
