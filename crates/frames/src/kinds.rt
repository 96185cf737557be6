// The first bytes of frames and of the lines that answer them.

// "4D and a row", "4E and an entry", "43 is a command", "57 one option byte"; W9: the last two "carry the reader as their first byte".
pub(crate) const TABLE: u8 = 0x4D;

pub(crate) const NAMESPACES: u8 = 0x4E;

pub(crate) const COMMAND: u8 = 0x43;

pub(crate) const WALK: u8 = 0x57;

// "41 and the bytes", "52 and the number in one byte"; a walk's answer begins as its frame does.
pub const ANSWER: u8 = 0x41;

pub(crate) const REFUSAL: u8 = 0x52;
