// Mailbox names: whether a run of bytes has the shape of one, its levels and INBOX's spelling with it; and INBOX spelled INBOX.
//
// Each condition is a loop over the whole name that keeps a bool or a count and never leaves early, so that it runs on many
// bytes at a time.
#![tactic(auto)]

ghost use Rattle.std.specs.Prelude.{◌≡◌, ◌≤◌, length};
ghost use Rattle.listing_rules.specs.Bytes.{all};
ghost use Rattle.listing_rules.specs.Names.{lawful_name, name_byte, levels, inbox_spelled};
ghost use Rattle.listing_rules.specs.Subscriptions.{spelled};
ghost use Rattle.names.specs.Slashes.{slash_count, no_pair};
ghost use Rattle.names.specs.Inbox.{inbox_first};

use octets::{SLASH, put_all, same_bytes, spells_word};

pub const MAX_NAME: usize = 200;

pub(crate) const MAX_LEVELS: u8 = 16;

// Whether the bytes are a lawful mailbox name: 1 to 200 of them, the right bytes, 1 to 16 levels, none empty, and a first level
// INBOX in no other spelling.
pub fn lawful_name(name: &[u8]) -> bool
    ensures { result ≡ lawful_name name.now }
{
    let n = name.len();
    if n == 0 {
        return false;
    }
    if MAX_NAME < n {
        return false;
    }
    if !name_bytes(name) {
        return false;
    }
    if MAX_LEVELS <= slashes(name) {
        return false;
    }
    if name[0] == SLASH {
        return false;
    }
    if name[n - 1] == SLASH {
        return false;
    }
    if !no_pair(name) {
        return false;
    }
    inbox_spelled(name)
}

// A name whose first level is INBOX in any case of letters is spelled INBOX; another stays as it is, lawful or not.
pub fn spell(name: &mut [u8])
    ensures { name.new ≡ spelled name.old }
{
    if !inbox_first(name) {
        return;
    }
    put_all(name, 0, b"INBOX");
}

// Whether it is a byte of names.
fn name_byte(b: u8) -> bool
    ensures { result ≡ name_byte b }
{
    (b' ' <= b) & (b <= b'~') & (b != b'%') & (b != b'*')
}

// Whether all bytes are bytes of names.
fn name_bytes(name: &[u8]) -> bool
    ensures { result ≡ all name_byte name.now }
{
    let mut ok = true;
    for b in name {
        ok &= name_byte(*b);
    }
    ok
}

// How many slashes there are.
fn slashes(name: &[u8]) -> u8
    requires { length name.now ≤ 200 }
    ensures { result ≡ slash_count name.now }
{
    let mut n: u8 = 0;
    for b in name {
        n += u8::from(*b == SLASH);
    }
    n
}

// Whether no slash follows another.
fn no_pair(name: &[u8]) -> bool
    ensures { result ≡ no_pair name.now }
{
    let mut ok = true;
    for i in 1..name.len() {
        ok &= !((name[i - 1] == SLASH) & (name[i] == SLASH));
    }
    ok
}

// Whether the first level is INBOX in any case of letters: the name begins so, and the level ends there.
fn inbox_first(name: &[u8]) -> bool
    ensures { result ≡ inbox_first name.now }
{
    if name.len() < 5 {
        return false;
    }
    if !spells_word(&name[..5], b"INBOX") {
        return false;
    }
    if name.len() == 5 {
        return true;
    }
    name[5] == SLASH
}

// Whether a first level INBOX, in any case of letters, is spelled INBOX.
fn inbox_spelled(name: &[u8]) -> bool
    ensures { result ≡ inbox_spelled (levels name.now) }
{
    if !inbox_first(name) {
        return true;
    }
    same_bytes(&name[..5], b"INBOX")
}
