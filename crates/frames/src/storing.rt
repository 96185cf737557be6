// The stored bytes of the table and of the namespace list: the front of a lent area, to which frames add.

ghost use Rattle.frames.specs.Storing.{Stores};

// The bytes behind the first `used` ones of the area, where at most `limit` are stored then. A limit that the area does not
// hold has no room. The bytes behind what is stored stay as they are.
pub fn store(area: &mut [u8], used: usize, limit: usize, bytes: &[u8]) -> Option<usize>
    ensures { Stores area.old area.new used limit bytes.now result }
{
    if area.len() < limit {
        return None;
    }
    if limit < used {
        return None;
    }
    if limit - used < bytes.len() {
        return None;
    }
    Some(octets::put_all(area, used, bytes))
}
