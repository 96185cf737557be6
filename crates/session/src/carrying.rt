// A frame carried out over what is stored: bytes added, records changed, or one line of output written.
ghost use Rattle.std.specs.Prelude.{◌≤◌, length, Some};
ghost use Rattle.frames.specs.Reading.{size_of};
ghost use Rattle.kept_table.specs.Kept.{lent, Within};
ghost use Rattle.octets.specs.Refusals.{number_of};
ghost use Rattle.session.specs.Carrying.{Keeps, AddsRow, CarriesOut, Ended};

use frames::{Frame, Gathered, put_refusal, read_gathered, store};
use kept_table::{
    Lengths, MAX_NAMESPACES, MAX_TABLE, Outcome, obey, said, walk_line, with_entries, with_rows,
};
use octets::{Refusal, filled};

// How many bytes of one area are stored after some were to be added, and how many bytes of output lie at the front of `out`.
#[derive(Clone, Copy)]
struct Added {
    len: usize,
    written: usize,
}

// Bytes added after the first `used` ones of an area; without room nothing is added, and the refusal is written.
fn keep(
    area: &mut [u8],
    used: usize,
    limit: usize,
    refusal: Refusal,
    bytes: &[u8],
    out: &mut [u8],
) -> Added
    requires used_le_limit { used ≤ limit }
    requires limit_in_bounds { limit ≤ length area.old }
    ensures { Keeps limit (number_of refusal) used bytes.now area.old area.new out.old out.new result }
{
    match store(area, used, limit, bytes) {
        Some(len) => Added { len, written: 0 },
        None => {
            let written = put_refusal(out, 0, refusal.number());
            Added { len: used, written }
        },
    }
}

// A row: added after the stored bytes, or 13 where records are kept.
fn add_row(stored: Lengths, row: &[u8], table: &mut [u8], out: &mut [u8]) -> Outcome
    requires table_bound { stored.table ≤ 16384 }
    requires in_bounds { 16384 ≤ length table.old }
    ensures { AddsRow stored row.now table.old table.new out.old out.new result }
{
    if stored.edited {
        return said(stored, put_refusal(out, 0, Refusal::BadFrame.number()));
    }
    let added = keep(table, stored.table, MAX_TABLE, Refusal::Table, row, out);
    with_rows(stored, added.len, added.written)
}

// A frame over what is stored.
fn carry_out(
    frame: Frame,
    bytes: &[u8],
    stored: Lengths,
    table: &mut [u8],
    records: &mut [u64],
    namespaces: &mut [u8],
    out: &mut [u8],
) -> Outcome
    requires frame_in_bounds { size_of (Some frame) ≤ length bytes.now }
    requires within { Within stored table.old records.old namespaces.old }
    ensures { CarriesOut stored bytes.now (Some frame)
        (lent table.old records.old namespaces.old out.old)
        (lent table.new records.new namespaces.new out.new) result }
{
    let entries = stored.namespaces;
    match frame {
        Frame::Table(n) => add_row(stored, &bytes[..n], table, out),
        Frame::Namespaces(n) => {
            let part = &bytes[..n];
            let added = keep(
                namespaces,
                entries,
                MAX_NAMESPACES,
                Refusal::Namespaces,
                part,
                out,
            );
            with_entries(stored, added.len, added.written)
        },
        Frame::Command(reader, n) => {
            let line = &bytes[1..n + 1];
            obey(stored, reader, line, table, records, namespaces, out)
        },
        Frame::Walk(reader, option) => {
            said(
                stored,
                walk_line(stored, reader, table, records, option, out),
            )
        },
    }
}

// The frame of the characters gathered, when its line feed has come.
pub(crate) fn end_frame(
    stored: Lengths,
    gathered: Gathered,
    line: &[u8],
    table: &mut [u8],
    records: &mut [u64],
    namespaces: &mut [u8],
    out: &mut [u8],
) -> Outcome
    requires { Within stored table.old records.old namespaces.old }
    ensures { Ended line.now gathered stored
        (lent table.old records.old namespaces.old out.old)
        (lent table.new records.new namespaces.new out.new) result }
{
    // room for the bytes of any frame
    let mut bytes: [u8; 2050] = filled(0);
    match read_gathered(line, gathered, &mut bytes) {
        Some(frame) => carry_out(frame, &bytes, stored, table, records, namespaces, out),
        None => said(stored, put_refusal(out, 0, Refusal::BadFrame.number())),
    }
}
