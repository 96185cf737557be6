// The replay of a night under C names.
ghost use Rattle.std.specs.Prelude.{◌≡◌, map};
ghost use Rattle.records.specs.Words.{meant};
ghost use Rattle.records.specs.Numbers.{summary_of};
ghost use Rattle.exports.specs.Replays.{lent_replay, replay_report, lent_piece, piece_report};

use exports::replaying::{FedPiece, ReplayState, Report};
use records::Record;

// A whole log run over the records, of which the first `count` are rows: records, area and summary are then as its commands left them.
#[unsafe(no_mangle)]
pub extern "C" fn luspemaro_replay(
    records: &mut [Record],
    count: usize,
    area: &mut [u8],
    summary: &mut [u64],
    namespaces: &[u8],
    log: &[u8],
) -> Report
    ensures result { result ≡ replay_report (lent_replay records.old count area.old summary.old
        namespaces.now log.now) }
    ensures area { area.new ≡ (lent_replay records.old count area.old summary.old
        namespaces.now log.now).area }
    ensures summary { map summary_of summary.new ≡ (lent_replay records.old count area.old summary.old
        namespaces.now log.now).summary }
    ensures records { map meant records.new ≡ (lent_replay records.old count area.old summary.old
        namespaces.now log.now).records }
{
    exports::replaying::luspemaro_replay(records, count, area, summary, namespaces, log)
}

// One piece of a log, of any length, from a state on. `pending` holds the command whose answer is due, `line` the frame so far.
#[unsafe(no_mangle)]
pub extern "C" fn luspemaro_replay_feed(
    records: &mut [Record],
    count: usize,
    state: ReplayState,
    area: &mut [u8],
    summary: &mut [u64],
    namespaces: &[u8],
    pending: &mut [u8],
    line: &mut [u8],
    piece: &[u8],
) -> FedPiece
    ensures result { result ≡ piece_report (lent_piece records.old count state area.old summary.old
        namespaces.now pending.old line.old piece.now) }
    ensures area { area.new ≡ (lent_piece records.old count state area.old summary.old
        namespaces.now pending.old line.old piece.now).area }
    ensures summary { map summary_of summary.new ≡ (lent_piece records.old count state area.old summary.old
        namespaces.now pending.old line.old piece.now).summary }
    ensures pending { pending.new ≡ (lent_piece records.old count state area.old summary.old
        namespaces.now pending.old line.old piece.now).pending }
    ensures line { line.new ≡ (lent_piece records.old count state area.old summary.old
        namespaces.now pending.old line.old piece.now).line }
    ensures records { map meant records.new ≡ (lent_piece records.old count state area.old summary.old
        namespaces.now pending.old line.old piece.now).records }
{
    exports::replaying::luspemaro_replay_feed(
        records, count, state, area, summary, namespaces, pending, line, piece,
    )
}
