// The whole LIST or LSUB answer: the lines of the names that are listed, in ascending order, and the tagged line.
ghost use Rattle.std.specs.Prelude.{◌≡◌, cond, ◌<◌, ◌-◌, length};
ghost use Rattle.listing_rules.specs.Server.{answered};
ghost use Rattle.octets.specs.Put.{Put};
ghost use Rattle.octets.specs.Written.{Gives};
ghost use Rattle.mailbox_table.specs.Index.{Index};
ghost use Rattle.list_answer.specs.Ready.{Knows, IsReady, At};
ghost use Rattle.list_answer.specs.Shown.{view_name, view_row, view_rows, view_answer, reply_to, list_reply, lsub_reply};

use super::decide::{Beginning, decide, front_of};
use super::marks::mark_rows;
use super::measured::{Answer, write_measured};
use super::question::{Question, is_one_at_most};
use super::view::View;
use command_line::Options;
use list_line::{put_line, put_ok_line};
use mailbox_table::rows::Row;
use mailbox_table::{MAX_ROWS, no_words};
use octets::Refusal;

// The LIST answer: the rows are marked for the command, and the answer is written or refused. The promise is for the index of a table
// that passes, which `mailbox_table::index` makes, or what `see_rows` leaves of it. Over other words it answers something, inside the
// lent memory; more words than a table has rows are refused with 1.
pub fn write_list(
    area: &[u8],
    words: &[u64],
    patterns: &[u8],
    options: Options,
    tag: &[u8],
    out: &mut [u8],
) -> Result<usize, Refusal>
    ensures { Index area.now words.now → Gives
        (list_reply area.now words.now patterns.now options tag.now)
        out.old out.new result }
{
    let question = Question::of(options, patterns);
    write_answer(area, words, patterns, question, tag, out)
}

// The LSUB answer, under the same condition. A second pattern is refused with 4.
pub fn write_lsub(
    area: &[u8],
    words: &[u64],
    patterns: &[u8],
    tag: &[u8],
    out: &mut [u8],
) -> Result<usize, Refusal>
    ensures { Index area.now words.now → Gives
        (lsub_reply area.now words.now patterns.now tag.now)
        out.old out.new result }
{
    if !is_one_at_most(patterns) {
        return Err(Refusal::Grammar);
    }
    let question = Question::lsub(patterns);
    write_answer(area, words, patterns, question, tag, out)
}

// The answer to a question: the rows are marked for it first.
fn write_answer(
    area: &[u8],
    words: &[u64],
    patterns: &[u8],
    question: Question,
    tag: &[u8],
    out: &mut [u8],
) -> Result<usize, Refusal>
    requires { Knows patterns.now question }
    ensures { Index area.now words.now → Gives
        (reply_to area.now words.now patterns.now question tag.now)
        out.old out.new result }
{
    let n = words.len();
    if MAX_ROWS < n {
        return Err(Refusal::Table);
    }
    let mut marked = no_words();
    let rows = &mut marked[..n];
    rows.copy_from_slice(words);
    mark_rows(area, rows, patterns, question);
    let view = View {
        area,
        words: rows,
        patterns,
        question,
    };
    write_marked(view, tag, out)
}

// The answer over rows that are marked.
fn write_marked(view: View, tag: &[u8], out: &mut [u8]) -> Result<usize, Refusal>
    ensures { IsReady view.entry → Gives (answered (view_answer view.entry tag.now)) out.old out.new result }
{
    write_measured(Listing { view, tag }, out)
}

// What an answer is made from: a view and the tag.
#[derive(Clone, Copy)]
struct Listing<'a, 'b> {
    view: View<'a>,
    tag: &'b [u8],
}

impl Answer for Listing<'_, '_> {
    ghost text = { λ a. view_answer a.view a.tag.now };

    ghost is_ready = { λ a. IsReady a.view };

    fn put(self, buf: &mut [u8]) -> usize {
        put_answer(buf, self.view, self.tag)
    }
}

// The lines and the tagged line.
fn put_answer(buf: &mut [u8], view: View, tag: &[u8]) -> usize
    ensures { IsReady view.entry →
        Put buf.old buf.new 0
        (view_answer view.entry tag.now) result }
{
    let to = put_rows(buf, 0, view);
    put_ok_line(buf, to, tag)
}

// The lines of all rows.
fn put_rows(buf: &mut [u8], at: usize, view: View) -> usize
    ensures { IsReady view.entry →
        Put buf.old buf.new at
        (view_rows view.entry) result }
{
    let mut to = at;
    for i in 0..view.words.len() {
        to = put_row(buf, to, view, i);
    }
    to
}

// The lines of the names that begin at row i: the beginnings of its name that are longer than what it shares with the name before.
fn put_row(buf: &mut [u8], at: usize, view: View, i: usize) -> usize
    requires { i < length view.words.now }
    ensures { IsReady view.entry →
        Put buf.old buf.new at
        (view_row view.entry i) result }
{
    let row = Row::of_word(view.words[i]);
    let first = first_length(view.question.is_recursive() | view.question.levels, row);
    let mut to = at;
    for k in first..row.len {
        let name = Beginning { row: i, len: k + 1 };
        to = put_name(buf, to, view, name);
    }
    to
}

// How many bytes the beginning has after which the first name of a row is looked for. A name that is no row's is listed under
// RECURSIVEMATCH or as a level alone, so without both a row's whole name is its first.
fn first_length(deep: bool, row: Row) -> usize
    ensures { result ≡ cond deep row.shared (row.len - 1) }
{
    if deep {
        return row.shared;
    }
    row.len.saturating_sub(1)
}

// The line of one name, where it is listed.
fn put_name(buf: &mut [u8], at: usize, view: View, name: Beginning) -> usize
    requires { name.row < length view.words.now }
    ensures { IsReady view.entry → At view.entry.words.now name →
        Put buf.old buf.new at
        (view_name view.entry name) result }
{
    let Some(line) = decide(view, name) else {
        return at;
    };
    let i = name.row;
    let len = name.len;
    let word = view.question.word;
    let bytes = front_of(view.area, Row::of_word(view.words[i]), len);
    put_line(buf, at, word, line.attributes, bytes, line.criteria)
}
