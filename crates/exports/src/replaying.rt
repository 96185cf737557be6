// The replay of a night as C takes it: its report, its state between two pieces of the log, and what comes of a piece, as structs of numbers.
//
// Each struct has more than 16 bytes, so that it passes in memory. Any numbers in a state are taken: see `replaying_of`. All records that are lent are
// copied back, since any command of a log may be an edit.
ghost use Rattle.std.specs.Prelude.{◌≡◌, map, take};
ghost use Rattle.records.specs.Words.{record_of, meant};
ghost use Rattle.records.specs.Numbers.{summary_of};
ghost use Rattle.records.specs.Lent.{lent_of};
ghost use Rattle.records.specs.Stores.{Between};
ghost use Rattle.exports.specs.Replays.{lent_replay, word_replay, replay_report, report_case, lent_piece, word_piece, piece_report, fed_case, state_in, state_back};

use crate::outcomes::Done;
use octets::least;
use records::{Record, copy_back, copy_in, no_words};
use replay::{Piece, Replayed, Replaying, Verdict, replay_piece};

// What a replay reports: 0, or 13 where it was stopped; the number of the frame that stopped it, of the first frame of 43 whose answer differs, or 0 where all
// agree; and how many records are rows at the end.
#[repr(C)]
#[derive(Clone, Copy)]
pub struct Report {
    pub number: u8,
    pub frame: usize,
    pub count: usize,
}

// A replay between two pieces of its log: the frames that have ended; the first of 43 that differs, or 0; the bytes of `pending` that are the command whose
// answer is due, or 0; the characters of the frame so far that `line` holds; and whether the last frame stopped it, 0 for no and any other number for
// yes. All zero before the first byte.
#[repr(C)]
#[derive(Clone, Copy)]
pub struct ReplayState {
    pub frames: usize,
    pub first: usize,
    pub due: usize,
    pub gathered: usize,
    pub stopped: u8,
}

// What comes of a piece: 1 where it was taken, else 0; what is reported if the log ends with it; and the state for the next one.
#[repr(C)]
#[derive(Clone, Copy)]
pub struct FedPiece {
    pub taken: u8,
    pub number: u8,
    pub frame: usize,
    pub count: usize,
    pub state: ReplayState,
}

// A whole log run over the records, of which the first `count` are rows: records, area and summary are then as its commands left them.
pub fn luspemaro_replay(
    records: &mut [Record],
    count: usize,
    area: &mut [u8],
    summary: &mut [u64],
    namespaces: &[u8],
    log: &[u8],
) -> Report
    ensures result { result ≡ replay_report (lent_replay records.old count area.old summary.old
        namespaces.now log.now) }
    ensures area { area.new ≡ (lent_replay records.old count area.old summary.old
        namespaces.now log.now).area }
    ensures summary { map summary_of summary.new ≡ (lent_replay records.old count area.old summary.old
        namespaces.now log.now).summary }
    ensures records { map meant records.new ≡ (lent_replay records.old count area.old summary.old
        namespaces.now log.now).records }
{
    let mut words = no_words();
    let lent = copy_in(records, summary.len(), &mut words);
    let done = replay_words(&mut words, lent, count, area, summary, namespaces, log);
    copy_back(records, done.from, done.to, &words);
    done.answer
}

// That over records, each as a number, of which the first `lent` are lent.
fn replay_words(
    words: &mut [u64],
    lent: usize,
    count: usize,
    area: &mut [u8],
    summary: &mut [u64],
    namespaces: &[u8],
    log: &[u8],
) -> Done<Report>
    ensures result { result.answer ≡ replay_report (word_replay words.old lent count area.old summary.old
        namespaces.now log.now) }
    ensures area { area.new ≡ (word_replay words.old lent count area.old summary.old
        namespaces.now log.now).area }
    ensures summary { map summary_of summary.new ≡ (word_replay words.old lent count area.old summary.old
        namespaces.now log.now).summary }
    ensures words { (map record_of (take (lent_of words.old lent summary.old) words.new)
        ≡ (word_replay words.old lent count area.old summary.old namespaces.now log.now).records)
        × Between words.old words.new (lent_of words.old lent summary.old) result.from result.to }
{
    let n = least(lent, words.len());
    let to = least(n, summary.len());
    let replayed = replay::replay_words(&mut words[..n], summary, count, area, namespaces, log);
    Done {
        answer: Report::from(replayed),
        from: 0,
        to,
    }
}

// One piece of a log, of any length, from a state on. `pending` holds the command whose answer is due, `line` the frame so far.
pub fn luspemaro_replay_feed(
    records: &mut [Record],
    count: usize,
    state: ReplayState,
    area: &mut [u8],
    summary: &mut [u64],
    namespaces: &[u8],
    pending: &mut [u8],
    line: &mut [u8],
    piece: &[u8],
) -> FedPiece
    ensures result { result ≡ piece_report (lent_piece records.old count state area.old summary.old
        namespaces.now pending.old line.old piece.now) }
    ensures area { area.new ≡ (lent_piece records.old count state area.old summary.old
        namespaces.now pending.old line.old piece.now).area }
    ensures summary { map summary_of summary.new ≡ (lent_piece records.old count state area.old summary.old
        namespaces.now pending.old line.old piece.now).summary }
    ensures pending { pending.new ≡ (lent_piece records.old count state area.old summary.old
        namespaces.now pending.old line.old piece.now).pending }
    ensures line { line.new ≡ (lent_piece records.old count state area.old summary.old
        namespaces.now pending.old line.old piece.now).line }
    ensures records { map meant records.new ≡ (lent_piece records.old count state area.old summary.old
        namespaces.now pending.old line.old piece.now).records }
{
    let mut words = no_words();
    let lent = copy_in(records, summary.len(), &mut words);
    let came = feed_words(
        &mut words, lent, count, state, area, summary, namespaces, pending, line, piece,
    );
    copy_back(records, came.from, came.to, &words);
    came.answer
}

// That over records, each as a number, of which the first `lent` are lent.
fn feed_words(
    words: &mut [u64],
    lent: usize,
    count: usize,
    state: ReplayState,
    area: &mut [u8],
    summary: &mut [u64],
    namespaces: &[u8],
    pending: &mut [u8],
    line: &mut [u8],
    piece: &[u8],
) -> Done<FedPiece>
    ensures result { result.answer ≡ piece_report (word_piece words.old lent count state area.old summary.old
        namespaces.now pending.old line.old piece.now) }
    ensures area { area.new ≡ (word_piece words.old lent count state area.old summary.old
        namespaces.now pending.old line.old piece.now).area }
    ensures summary { map summary_of summary.new ≡ (word_piece words.old lent count state area.old summary.old
        namespaces.now pending.old line.old piece.now).summary }
    ensures pending { pending.new ≡ (word_piece words.old lent count state area.old summary.old
        namespaces.now pending.old line.old piece.now).pending }
    ensures line { line.new ≡ (word_piece words.old lent count state area.old summary.old
        namespaces.now pending.old line.old piece.now).line }
    ensures words { (map record_of (take (lent_of words.old lent summary.old) words.new)
        ≡ (word_piece words.old lent count state area.old summary.old
        namespaces.now pending.old line.old piece.now).records)
        × Between words.old words.new (lent_of words.old lent summary.old) result.from result.to }
{
    let n = least(lent, words.len());
    let end = least(n, summary.len());
    let held = replaying_of(state, count);
    let given = replay_piece(
        held,
        &mut words[..n],
        summary,
        area,
        namespaces,
        pending,
        line,
        piece,
    );
    Done {
        answer: fed_of(given, held),
        from: 0,
        to: end,
    }
}

impl From<Replayed> for Report {
    ghost from_gives = { λ replayed r. r ≡ report_case replayed };

    fn from(replayed: Replayed) -> Report {
        let verdict = replayed.verdict;
        Report {
            number: verdict.number(),
            frame: verdict.frame(),
            count: replayed.count,
        }
    }
}

// Of a piece that was not taken: no verdict, and the state as it was.
fn fed_of(given: Option<Piece>, held: Replaying) -> FedPiece
    ensures { result ≡ fed_case held given }
{
    let piece = given.unwrap_or(Piece {
        verdict: Verdict::Agrees,
        state: held,
    });
    FedPiece {
        taken: u8::from(given.is_some()),
        number: piece.verdict.number(),
        frame: piece.verdict.frame(),
        count: piece.state.rows,
        state: ReplayState::from(piece.state),
    }
}

// The state that C's stands for, over records of which the first `count` are rows.
fn replaying_of(state: ReplayState, count: usize) -> Replaying
    ensures { result ≡ state_in state count }
{
    Replaying {
        frames: state.frames,
        first: state.first,
        due: state.due,
        stopped: state.stopped != 0,
        gathered: state.gathered,
        rows: count,
    }
}

impl From<Replaying> for ReplayState {
    ghost from_gives = { λ held st. st ≡ state_back held };

    fn from(held: Replaying) -> ReplayState {
        ReplayState {
            frames: held.frames,
            first: held.first,
            due: held.due,
            gathered: held.gathered,
            stopped: u8::from(held.stopped),
        }
    }
}
