// Whether a mailbox name matches a canonical pattern, in at most (p + 1) times (n + 1) steps for a pattern of p bytes and a name of n.
//
// The steps are in `front` and `steps`, what calls them in `run`.
#![tactic(auto)]

mod front;
mod run;
mod steps;

ghost use Rattle.std.specs.Prelude.{◌≡◌, ◌&&◌, ◌||◌, not, ◌+◌, ◌*◌, ◌≤◌, ◌<◌, min, leb, length, get_or};
ghost use Rattle.listing_rules.specs.Bytes.{same};
ghost use Rattle.listing_rules.specs.Lists.{any_of};
ghost use Rattle.listing_rules.specs.Names.{inbox};
ghost use Rattle.listing_rules.specs.Match.{wild_match, matches, matches_any};
ghost use Rattle.listing_rules.specs.Listing.{ends_in_percent};
ghost use Rattle.pattern.specs.Folded.{letter_of, folded};
ghost use Rattle.pattern.specs.Packed.{unpacked};
ghost use Rattle.pattern.specs.Chosen.{chosen};
ghost use Rattle.pattern.specs.Steps.{counted_is};

use octets::{raised_byte, same_bytes};
use run::run_steps;
pub use steps::Counted;

// The longest name that is looked at; a longer one matches nothing. (A mailbox name has at most 200 bytes.)
pub const MAX_NAME: usize = 255;

// Whether the name matches the canonical pattern; the name INBOX, alone, against the pattern with its letters a to z raised.
pub fn matches(pattern: &[u8], name: &[u8]) -> bool
    ensures { result ≡ (leb (length name.now) 255 && matches pattern.now name.now) }
{
    match_steps(pattern, name).matched
}

// The same, with the number of steps that it took.
pub fn match_steps(pattern: &[u8], name: &[u8]) -> Counted
    ensures matched_value { result.matched ≡ (leb (length name.now) 255 && matches pattern.now name.now) }
    ensures steps_bound { result.steps ≤ (length pattern.now + 1) * (length name.now + 1) }
    ensures value { result ≡ counted_is pattern.now name.now }
{
    if MAX_NAME < name.len() {
        return Counted {
            matched: false,
            steps: 0,
        };
    }
    run_steps(pattern, name, is_inbox(name))
}

// Whether the name matches one of the patterns, which lie one behind the other, each as a length byte and its bytes. A last
// pattern that runs past the end is cut short there. With `levels`, the patterns that end in "%" are the only ones.
pub fn matches_any(patterns: &[u8], levels: bool, name: &[u8]) -> bool
    ensures { result ≡ (leb (length name.now) 255 && matches_any (chosen levels (unpacked patterns.now)) name.now) }
{
    if MAX_NAME < name.len() {
        return false;
    }
    let fold = is_inbox(name);
    let mut at = 0;
    // No `for`: where the next pattern begins, the length byte of this one says.
    while at < patterns.len() {
        let start = at + 1;
        let end = item_end(patterns, at);
        if chosen_match(&patterns[start..end], levels, name, fold) {
            return true;
        }
        at = end;
    }
    false
}

// Whether one of the patterns, packed as for `matches_any`, ends in "%".
pub fn some_level(patterns: &[u8]) -> bool
    ensures { result ≡ any_of ends_in_percent (unpacked patterns.now) }
{
    let mut at = 0;
    // As in `matches_any`.
    while at < patterns.len() {
        let start = at + 1;
        let next = item_end(patterns, at);
        if ends_in_percent(&patterns[start..next]) {
            return true;
        }
        at = next;
    }
    false
}

// Whether the last byte of the pattern is "%".
fn ends_in_percent(pattern: &[u8]) -> bool
    ensures { result ≡ ends_in_percent pattern.now }
{
    pattern.ends_with(b"%")
}

// Whether the name matches the pattern, and the pattern counts: with `levels`, only if it ends in "%".
fn chosen_match(pattern: &[u8], levels: bool, name: &[u8], fold: bool) -> bool
    ensures { result ≡ ((not levels || ends_in_percent pattern.now) && wild_match (folded fold pattern.now) name.now) }
{
    if levels & !ends_in_percent(pattern) {
        return false;
    }
    run_steps(pattern, name, fold).matched
}

// Where the item at this place of a packed run ends: after its bytes, or where the run ends.
fn item_end(run: &[u8], at: usize) -> usize
    requires { at < length run.now }
    ensures { result ≡ min (at + 1 + get_or run.now at 0) (length run.now) }
{
    at + 1 + usize::from(run[at]).min(run.len() - at - 1)
}

// Whether the name is INBOX, in capitals.
#[tactic(auto, unfolding(listing_rules::specs::Bytes::text, listing_rules::specs::Names::inbox))]
fn is_inbox(name: &[u8]) -> bool
    ensures { result ≡ same name.now inbox }
{
    same_bytes(name, b"INBOX")
}

// A pattern's byte as it is compared: raised if `fold` is set.
fn letter(p: u8, fold: bool) -> u8
    ensures { result ≡ letter_of fold p }
{
    if !fold {
        return p;
    }
    raised_byte(p)
}
