// Names as they lie in found and pending: each after its length, in one byte.
ghost use Rattle.std.specs.Prelude.{◌≤◌, length};
ghost use Rattle.collector.specs.Names.{Keeps};

use octets::{put, put_all};

// A name after those that lie in the first `at` bytes, if it is wanted.
pub(crate) fn keep(wanted: bool, buf: &mut [u8], at: usize, name: &[u8]) -> Option<usize>
    requires at_in_bounds { at ≤ length buf.old }
    requires name_len_bound { length name.now ≤ 255 }
    ensures { Keeps wanted name.now buf.old at buf.new result }
{
    if !wanted {
        return Some(at);
    }
    let n = name.len();
    if buf.len() - at <= n {
        return None;
    }
    let a = put(buf, at, n as u8);
    let e = put_all(buf, a, name);
    Some(e)
}
