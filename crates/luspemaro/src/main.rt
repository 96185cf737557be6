// The program: frames from standard input, their answers to standard output.
//
// What the answers are is proved in `session`. Here are the buffers and the calls of the system: the bytes of a read are fed as long
// as the output has room for a line more, so that the answers of many frames go out in one write.
//
// A call that a signal interrupts is made again, and so is one that would block, after a pause; it is given up after 2 ^ 64 - 1
// tries. Any other failure is told on standard error in one line and ends the program: nothing more goes to standard output, no 13
// either for the bytes before it. The line names the frame that was being read, or the first one whose answer may be missing:
//
//     luspemaro: write failed at frame 12: No space left on device
//
// The calls are those of the kit's std: reading standard input, writing standard output and standard error, and waiting. No contract of
// theirs says which bytes a call moves, or what a descriptor is: what is promised here is what lies in the memory before a write and after
// a read, which slice and which number are handed over, and what is made of the answer. That `main` calls `run`, and what stands on
// standard error, is tried (`tools/io-trials`). A reader that goes away ends the program by SIGPIPE, unless that is ignored.
#![tactic(auto)]

mod calls;
mod feeding;
mod serving;

ghost use Rattle.kept_table.specs.Kept.{lent};
ghost use Rattle.luspemaro.specs.Serving.{Runs, Sized};

use kept_table::MAX_NUMBERS;
use octets::filled;
use serving::{Place, read_on};

// The whole input. A loop has to end: the turns are more than any input has bytes.
fn run(
    rt: &HostRuntime,
    table: &mut [u8],
    records: &mut [u64],
    namespaces: &mut [u8],
    line: &mut [u8],
    out: &mut [u8],
) -> Place
    requires { Sized (lent table.old records.old namespaces.old out.old) line.old }
    ensures { Runs
        (lent table.old records.old namespaces.old out.old)
        (lent table.new records.new namespaces.new out.new)
        line.old line.new result }
{
    let mut place = Place::start();
    for turn in 0..u64::MAX {
        if !place.more {
            break;
        }
        place = read_on(rt, place, table, records, namespaces, line, out);
    }
    place
}

fn main(rt: HostRuntime) {
    // Document 01's sizes: stored bytes 16,384 and 1,024, digits 4,102; "the program keeps 512 records", and a summary for each.
    let mut table: [u8; 16384] = filled(0);
    let mut records: [u64; MAX_NUMBERS] = filled(0);
    let mut namespaces: [u8; 1024] = filled(0);
    let mut line: [u8; 4102] = filled(0);

    // Room for the longest line four times, so that a read's answers mostly go out together.
    let mut out: [u8; 131084] = filled(0);
    run(
        &rt,
        &mut table,
        &mut records,
        &mut namespaces,
        &mut line,
        &mut out,
    );
}
