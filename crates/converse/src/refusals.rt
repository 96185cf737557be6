// The line of a refusal: its number, and its meaning in the words of include/luspemaro.h.

ghost use Rattle.std.specs.Prelude.{◌≡◌};
ghost use Rattle.octets.specs.Put.{Put};
ghost use Rattle.conversation.specs.Texts.{meaning, status_of, refusal_text, refusal_line};
ghost use Rattle.conversation.specs.Conversation.{tag_of};

use crate::lines::put_number;
use crate::tags::put_tag;
use octets::{put, put_all};

const TABLE: [u8; 82] =
    *b"the mailbox table or its summary does not pass, or count is above the records lent";

const NAMESPACES: [u8; 32] = *b"the namespace list does not pass";

const LINE_SHAPE: [u8; 87] =
    *b"too long, no CR LF at its end, a byte that no line has, a literal cut short or too long";

const GRAMMAR: [u8; 59] = *b"the tag, or the rest after a known word, is off the grammar";

const WORD: [u8; 65] = *b"the word is none of LIST, LSUB, NAMESPACE, SUBSCRIBE, UNSUBSCRIBE";

const OPTION: [u8; 63] = *b"an unknown option, one with a value, or an unlawful option byte";

const RECURSIVEMATCH_ALONE: [u8; 64] =
    *b"RECURSIVEMATCH with neither SUBSCRIBED nor SPECIAL-USE beside it";

const PATTERNS: [u8; 57] = *b"over 8 patterns, or a canonical pattern of over 255 bytes";

const SHORT_BUFFER: [u8; 50] = *b"the answer, or the line, is longer than its buffer";

const FOUND_FULL: [u8; 19] = *b"a find does not fit";

const PENDING_FULL: [u8; 27] = *b"a pending name does not fit";

const NOT_SUCH_LINE: [u8; 40] = *b"not a LIST line, or not the parts of one";

const BAD_FRAME: [u8; 79] =
    *b"of a replay: a frame that is unreadable or out of turn, or no answer at the end";

const UNLAWFUL_NAME: [u8; 65] =
    *b"SUBSCRIBE: an unlawful name, or one below a row with no inferiors";

const NO_ROOM: [u8; 83] =
    *b"SUBSCRIBE would insert a row: 512 rows, no spare record, or no free run long enough";

const READER: [u8; 66] = *b"the reader is above 7, or an edit comes from another reader than 0";

// The meaning of a number of refusal; by the number and no `Refusal`, since `put_refusal` promises an answer to any number.
fn put_meaning(buf: &mut [u8], at: usize, k: u8) -> usize
    ensures { Put buf.old buf.new at (meaning k) result }
{
    match k {
        0 => put_all(buf, at, &TABLE),
        1 => put_all(buf, at, &TABLE),
        2 => put_all(buf, at, &NAMESPACES),
        3 => put_all(buf, at, &LINE_SHAPE),
        4 => put_all(buf, at, &GRAMMAR),
        5 => put_all(buf, at, &WORD),
        6 => put_all(buf, at, &OPTION),
        7 => put_all(buf, at, &RECURSIVEMATCH_ALONE),
        8 => put_all(buf, at, &PATTERNS),
        9 => put_all(buf, at, &SHORT_BUFFER),
        10 => put_all(buf, at, &FOUND_FULL),
        11 => put_all(buf, at, &PENDING_FULL),
        12 => put_all(buf, at, &NOT_SUCH_LINE),
        13 => put_all(buf, at, &BAD_FRAME),
        14 => put_all(buf, at, &UNLAWFUL_NAME),
        15 => put_all(buf, at, &NO_ROOM),
        16 => put_all(buf, at, &READER),
        _ => put_all(buf, at, b""),
    }
}

// "NO if the line is lawful and the answer is no, BAD if the line is wrong".
fn put_status(buf: &mut [u8], at: usize, k: u8) -> usize
    ensures { Put buf.old buf.new at (status_of k) result }
{
    if (3 <= k) & (k <= 8) {
        return put_all(buf, at, b"BAD");
    }
    put_all(buf, at, b"NO")
}

// The number, and its meaning.
fn put_reason(buf: &mut [u8], at: usize, k: u8) -> usize
    ensures { Put buf.old buf.new at (refusal_text k) result }
{
    let a = put_all(buf, at, b"[refusal ");
    let b = put_number(buf, a, k);
    let c = put_all(buf, b, b"] ");
    put_meaning(buf, c, k)
}

// The line of a refusal, with the tag of the client's line.
pub fn put_refusal(buf: &mut [u8], at: usize, line: &[u8], k: u8) -> usize
    ensures { Put buf.old buf.new at (refusal_line (tag_of line.now) k) result }
{
    let a = put_tag(buf, at, line);
    let b = put(buf, a, b' ');
    let c = put_status(buf, b, k);
    let d = put(buf, c, b' ');
    let e = put_reason(buf, d, k);
    put_all(buf, e, b"\r\n")
}
