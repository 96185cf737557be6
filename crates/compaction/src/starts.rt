// Words whose names have moved.
ghost use Rattle.std.specs.Prelude.{◌≡◌, map, length};
ghost use Rattle.compaction.specs.Moves.{Starts, restarted};

// Each word with the place of its start as its start.
pub(crate) fn restart(words: &mut [u64], places: &[u16])
    requires { Starts words.old (length places.now) }
    ensures { words.new ≡ map (restarted places.now) words.old }
{
    for i in 0..words.len() {
        let w = words[i];
        let start = w / 65536 % 65536;
        words[i] = w - 65536 * start + 65536 * (places[start as usize] as u64);
    }
}
