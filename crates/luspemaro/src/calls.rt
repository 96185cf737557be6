// The calls of the system, made again where they were interrupted or would have blocked.

ghost use Rattle.std.specs.Prelude.{◌≤◌, ◌≡◌, false, pos, drop, length, Ok, is_ok};
ghost use Rattle.std.specs.Result.{ForOk, ForErr, IfOk};
ghost use Rattle.io.specs.Counts.{IsPrefixLen};
ghost use Rattle.luspemaro.specs.declared.calls.Got.TheVariants.{End};
ghost use Rattle.luspemaro.specs.Calling.{is_repeated, Moved, Fails, GotSome, LeavesLess, Sends};

use std::io::{Error, Read, Write};
use std::thread;
use std::time::Duration;

const STDIN_FILENO: i32 = 0;

const STDOUT_FILENO: i32 = 1;

// The errors after which a call is made again.
const EINTR: i32 = 4;

const EAGAIN: i32 = 11;

// What came of a read: so many bytes, the end of the input, or a failure with its error.
#[derive(Clone, Copy)]
pub(crate) enum Got {
    Bytes(usize),
    End,
    Failed(i32),
}

// Bytes that were not all written: how many the system took, and the error.
#[derive(Clone, Copy)]
pub(crate) struct Unsent {
    pub bytes: usize,
    pub error: i32,
}

// Waits a thousandth of a second.
fn pause(rt: &HostRuntime) {
    thread::sleep(rt, Duration::from_millis(1));
}

// Whether a call that failed with this error is to be made again, after a pause if it would have blocked.
fn is_to_be_repeated(rt: &HostRuntime, error: i32) -> bool
    ensures { result ≡ is_repeated error }
{
    if error == EAGAIN {
        pause(rt);
        return true;
    }
    error == EINTR
}

// The answer of a call that was handed so many bytes: how many it moved, or its error.
fn answer_of(moved: std::io::Result<usize>, most: usize) -> Result<usize, i32>
    requires { ForOk moved (λ n. n ≤ most) }
    ensures bounded { Moved most result }
    ensures count { ForOk moved (λ n. result ≡ Ok n) }
    ensures failed { ForErr moved (λ e. is_ok result ≡ false) }
{
    match moved {
        Ok(n) => Ok(n),
        Err(e) => Err(e.raw_os_error().unwrap_or(0)),
    }
}

// One call of the system's read. No contract says what a descriptor is: that it is standard input is asked of the caller.
fn read_from(rt: &HostRuntime, descriptor: i32, chunk: &mut [u8]) -> Result<usize, i32>
    requires { descriptor ≡ pos 0 }
    ensures { Moved (length chunk.old) result }
{
    let most = chunk.len();
    let moved = rt.stdin().read(chunk);
    answer_of(moved, most)
}

// One call of the system's write, to standard output alone.
fn write_to(rt: &HostRuntime, descriptor: i32, bytes: &[u8]) -> Result<usize, i32>
    requires { descriptor ≡ pos 1 }
    ensures { Moved (length bytes.now) result }
{
    if descriptor == STDOUT_FILENO {
        let moved = rt.stdout().write(bytes);
        return answer_of(moved, bytes.len());
    }
    let moved = rt.stderr().write(bytes);
    answer_of(moved, bytes.len())
}

// A read that answers 0 has met the end of the input.
fn end_of(moved: Result<usize, i32>) -> Got
    requires { moved ≡ Ok 0 }
    ensures { result ≡ End }
{
    Got::End
}

// A call is given up only if it failed, by an error after which it is not to be made again.
fn given_up(moved: Result<usize, i32>, error: i32) -> i32
    requires { Fails moved error }
    ensures { result ≡ error }
{
    error
}

// One read, of a byte or more. A loop has to end: the tries are more than any machine makes.
pub(crate) fn read_some(rt: &HostRuntime, chunk: &mut [u8]) -> Got
    ensures { GotSome (length chunk.old) result }
{
    for _ in 0..u64::MAX {
        let moved = read_from(rt, STDIN_FILENO, chunk);
        match moved {
            Ok(n) => {
                if 0 < n {
                    return Got::Bytes(n);
                }
                return end_of(moved);
            },
            Err(error) => {
                if !is_to_be_repeated(rt, error) {
                    return Got::Failed(given_up(moved, error));
                }
            },
        }
    }
    Got::Failed(EAGAIN)
}

// One write, which takes a byte or more: the bytes that are left after it, or the error by which it was given up. A write that takes
// nothing and does not fail would have blocked.
fn write_some<'a>(rt: &HostRuntime, bytes: &'a [u8]) -> Result<&'a [u8], i32>
    ensures { IfOk result (λ left. LeavesLess bytes.now left.now) }
{
    for _ in 0..u64::MAX {
        let moved = write_to(rt, STDOUT_FILENO, bytes);
        match moved {
            Ok(taken) => {
                if 0 < taken {
                    return Ok(left_of(bytes, taken));
                }
                pause(rt);
            },
            Err(reason) => {
                if !is_to_be_repeated(rt, reason) {
                    return Err(given_up(moved, reason));
                }
            },
        }
    }
    Err(EAGAIN)
}

// The bytes after those that a write took.
fn left_of(bytes: &[u8], taken: usize) -> &[u8]
    requires { taken ≤ length bytes.now }
    ensures { result.now ≡ drop taken bytes.now }
{
    &bytes[taken..]
}

// Writes the first bytes of `out`, in as many calls as it takes: each is handed what the one before has left. All were taken, or so
// many until a write failed.
pub(crate) fn send(rt: &HostRuntime, out: &[u8], written: usize) -> Result<usize, Unsent>
    requires { written ≤ length out.now }
    ensures { Sends written result }
{
    let mut rest = &out[..written];

    // A `while`: each turn leaves as many bytes less as the system took.
    while 0 < rest.len() {
        match write_some(rt, rest) {
            Ok(left) => rest = left,
            Err(error) => {
                let bytes = written - rest.len();
                return Err(Unsent { bytes, error });
            },
        }
    }
    Ok(written)
}

// One line on standard error: what failed, the number of the frame, and why, as the system puts it.
pub(crate) fn tell(rt: &HostRuntime, what: &[u8], frame: usize, error: i32) {
    let mut digits = [0u8; 20];
    let n = io::decimal(frame as u64, &mut digits);
    let mut text = [0u8; 256];
    let at = octets::put_all(&mut text, 0, what);
    let to = octets::put_all(&mut text, at, &digits[..n]);
    let len = at_most(to, &text);
    let end = put_reason(&mut text[len..], error);
    let said = at_most(octets::advance(len, end), &text);
    let mut stream = rt.stderr();
    let _told = stream.write_all(&text[..said]);
    let _ended = stream.write_all(b"\n");
}

// The reason of a failure at the front of the text, after a colon, without the number that std puts behind it; and how many bytes it has.
fn put_reason(text: &mut [u8], error: i32) -> usize {
    let room = text.len();
    let mut rest = &mut *text;
    let _put = write!(rest, ": {}", Error::from_raw_os_error(error));
    let left = rest.len();
    before_number(text, room.saturating_sub(left))
}

// Where the number begins that ends the first n bytes of the text, as " (os error 28)" does; n where there is none.
fn before_number(text: &[u8], n: usize) -> usize {
    let front = &text[..at_most(n, text)];
    match front.iter().rposition(|b| *b == b'(') {
        Some(k) => k.saturating_sub(1),
        None => n,
    }
}

// A number of the text's bytes: n, or all of them.
fn at_most(n: usize, text: &[u8]) -> usize
    ensures { IsPrefixLen result text.now }
{
    if n < text.len() { n } else { text.len() }
}
