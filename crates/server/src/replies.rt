// The answers, each measured over an empty buffer before it is written.
ghost use Rattle.std.specs.Prelude.{◌≡◌, ◌≤◌, leb, length};
ghost use Rattle.listing_rules.specs.Lines.{ok_line};
ghost use Rattle.octets.specs.Put.{Put};
ghost use Rattle.octets.specs.Written.{Gives};
ghost use Rattle.command_line.specs.Commands.{patterns_of, Few};
ghost use Rattle.server.specs.Replies.{spaces_text, spaces_reply, root_text, root_reply, listing_reply, subscriptions_reply};

use super::asked::{Asked, Rows};
use command_line::put_patterns;
use list_answer::{Answer, write_list, write_lsub, write_measured};
use list_line::{put_ok_line, put_root_line};
use namespace_list::put_namespaces;
use octets::{Refusal, filled};

// The NAMESPACE answer.
fn put_spaces(buf: &mut [u8], namespaces: &[u8], tag: &[u8]) -> usize
    ensures { Put buf.old buf.new 0 (spaces_text namespaces.now tag.now) result }
{
    let to = put_namespaces(buf, 0, namespaces);
    put_ok_line(buf, to, tag)
}

pub(crate) fn write_namespaces(
    namespaces: &[u8],
    tag: &[u8],
    out: &mut [u8],
) -> Result<usize, Refusal>
    ensures { Gives (spaces_reply namespaces.now tag.now) out.old out.new result }
{
    write_measured(Spaces { namespaces, tag }, out)
}

// What the NAMESPACE answer is made from.
#[derive(Clone, Copy)]
struct Spaces<'a, 'b> {
    namespaces: &'a [u8],
    tag: &'b [u8],
}

impl Answer for Spaces<'_, '_> {
    ghost text = { λ a. spaces_text a.namespaces.now a.tag.now };

    ghost is_ready = { λ _. Unit };

    fn put(self, buf: &mut [u8]) -> usize {
        put_spaces(buf, self.namespaces, self.tag)
    }
}

// The root line and the tagged line.
fn put_root(buf: &mut [u8], tag: &[u8]) -> usize
    ensures { Put buf.old buf.new 0 (root_text tag.now) result }
{
    let to = put_root_line(buf, 0);
    put_ok_line(buf, to, tag)
}

pub(crate) fn write_root(tag: &[u8], out: &mut [u8]) -> Result<usize, Refusal>
    ensures { Gives (root_reply tag.now) out.old out.new result }
{
    write_measured(Root { tag }, out)
}

// What the root answer is made from.
#[derive(Clone, Copy)]
struct Root<'a> {
    tag: &'a [u8],
}

impl Answer for Root<'_> {
    ghost text = { λ a. root_text a.tag.now };

    ghost is_ready = { λ _. Unit };

    fn put(self, buf: &mut [u8]) -> usize {
        put_root(buf, self.tag)
    }
}

// Whether the tagged line alone, the answer to an edit, fits a buffer of this size.
pub(crate) fn ok_fits(tag: &[u8], size: usize) -> bool
    ensures { result ≡ leb (length (ok_line tag.now)) size }
{
    let mut none = [0u8; 0];
    let need = put_ok_line(&mut none, 0, tag);
    need <= size
}

// Room for eight canonical patterns, each with a length byte.
const PATTERN_ROOM: usize = 2048;

// The LIST answer of a command whose canonical patterns are few and short.
pub(crate) fn write_listing(
    rows: Rows,
    asked: Asked,
    tag: &[u8],
    out: &mut [u8],
) -> Result<usize, Refusal>
    requires { Few (patterns_of asked.line.now asked.command) }
    ensures { Gives
        (listing_reply rows.entry.area.now rows.entry.words.now asked.entry.line.now asked.entry.command tag.now)
        out.old out.new result }
{
    let mut patterns: [u8; PATTERN_ROOM] = filled(0);
    let end = put_patterns(asked.line, asked.command, &mut patterns);
    write_list(
        rows.area,
        rows.words,
        &patterns[..end],
        asked.command.options,
        tag,
        out,
    )
}

// The LSUB answer of a command with one canonical pattern, or none where its pattern is empty.
pub(crate) fn write_subscriptions(
    rows: Rows,
    asked: Asked,
    tag: &[u8],
    out: &mut [u8],
) -> Result<usize, Refusal>
    requires { Few (patterns_of asked.line.now asked.command) × (length (patterns_of asked.line.now asked.command) ≤ 1) }
    ensures { Gives
        (subscriptions_reply rows.entry.area.now rows.entry.words.now asked.entry.line.now asked.entry.command tag.now)
        out.old out.new result }
{
    let mut patterns: [u8; PATTERN_ROOM] = filled(0);
    let end = put_patterns(asked.line, asked.command, &mut patterns);
    write_lsub(rows.area, rows.words, &patterns[..end], tag, out)
}
