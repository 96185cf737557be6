// The lines that the server sends beside the library's answers. The buffer and the place in it stay two parameters, as of octets' `put`,
// whose promise is made here too.

ghost use Rattle.std.specs.Prelude.{◌≡◌};
ghost use Rattle.octets.specs.Put.{Put};
ghost use Rattle.conversation.specs.Texts.{closing, untagged, number_text, welcome};
ghost use Rattle.conversation.specs.Conversation.{tag_of};

use crate::tags::put_tag;
use octets::{put, put_all};

// A line that closes an answer: the tag of the client's line, one of three words, and a remark.
pub fn put_closing(buf: &mut [u8], at: usize, line: &[u8], status: &[u8], remark: &[u8]) -> usize
    ensures { Put buf.old buf.new at (closing (tag_of line.now) status.now remark.now) result }
{
    let a = put_tag(buf, at, line);
    let b = put(buf, a, b' ');
    let c = put_all(buf, b, status);
    let d = put(buf, c, b' ');
    let e = put_all(buf, d, remark);
    put_all(buf, e, b"\r\n")
}

// A line without a tag.
pub fn put_untagged(buf: &mut [u8], at: usize, body: &[u8]) -> usize
    ensures { Put buf.old buf.new at (untagged body.now) result }
{
    let a = put_all(buf, at, b"* ");
    let b = put_all(buf, a, body);
    put_all(buf, b, b"\r\n")
}

// A number below 100 in decimal digits; of any other the last two digits, where Display has a third one.
pub(crate) fn put_number(buf: &mut [u8], at: usize, k: u8) -> usize
    ensures { Put buf.old buf.new at (number_text k) result }
{
    if 10 <= k {
        let a = put(buf, at, b'0' + k / 10 % 10);
        return put(buf, a, b'0' + k % 10);
    }
    put(buf, at, b'0' + k % 10)
}

// The first line that a client is sent, where it is served.
pub fn put_welcome(buf: &mut [u8], at: usize, reader: u8) -> usize
    ensures { Put buf.old buf.new at (welcome reader) result }
{
    let a = put_all(
        buf,
        at,
        b"* PREAUTH [CAPABILITY IMAP4rev1 LIST-EXTENDED SPECIAL-USE CHILDREN NAMESPACE ID] Luspemaro, for reader ",
    );
    let b = put_number(buf, a, reader);
    put_all(buf, b, b"\r\n")
}
