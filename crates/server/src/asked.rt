// What a command is answered from, each with what is known of it.
ghost use Rattle.mailbox_table.specs.Index.{Index};
ghost use Rattle.server.specs.Edits.{Reads};

use command_line::Command;

// The index of a table that passes, over the area where its names lie.
#[derive(Clone, Copy)]
pub(crate) struct Rows<'a> {
    pub(crate) area: &'a [u8],
    pub(crate) words: &'a [u64],
    pub(crate) ghost index: { Index area.now words.now },
}

// A command, and the line that it was read from.
#[derive(Clone, Copy)]
pub(crate) struct Asked<'a> {
    pub(crate) line: &'a [u8],
    pub(crate) command: Command,
    pub(crate) ghost reads: { Reads line.now command },
}
