// The namespace list: check 2, and the line that shows the list.
//
// A list is entries packed one behind the other: class, prefix length, prefix, delimiter. Both public functions take
// any bytes. The line is defined for a list that does not pass too: a prefix ends with the list at the latest, and a delimiter
// behind the list's end is NIL.
#![tactic(auto)]

ghost use Rattle.std.specs.Prelude.{◌≡◌, ◌<◌, length};
ghost use Rattle.listing_rules.specs.Bytes.{all, within};
ghost use Rattle.listing_rules.specs.Namespaces.{entries, lawful_entry, of_class, namespaces_pass};
ghost use Rattle.listing_rules.specs.Server.{delimiter_text, entry_text, class_text};
ghost use Rattle.octets.specs.Put.{Put};
ghost use Rattle.namespace_list.specs.Entries.{entry_of, EntryAt};
ghost use Rattle.namespace_list.specs.Line.{entries_text, namespace_line};

use octets::{byte_at, least, put, put_all, put_quoted, wide};

// 0 personal, 1 other users, 2 shared.
const MAX_CLASS: u8 = 2;

const MAX_PREFIX: usize = 64;

const MAX_OF_CLASS: usize = 4;

// The bytes of a prefix are 20 to 7E in hexadecimal, and a delimiter is no space.
const FIRST_PRINTED: u8 = 32;

const FIRST_DELIMITER: u8 = 33;

const LAST_PRINTED: u8 = 126;

// An entry as it lies in a list: its prefix goes from start up to end, the next entry begins at next.
#[derive(Clone, Copy)]
struct Entry {
    class: u8,
    start: usize,
    end: usize,
    delimiter: u8,
    next: usize,
}

// Check 2, in one pass: entries fill the list exactly, each is lawful, classes do not descend, and no class has too many.
// The count is that of the last entry's class. It starts anew where the class rises, since no entry behind has a lower class.
pub fn check(list: &[u8]) -> bool
    ensures { result ≡ namespaces_pass list.now }
{
    let mut at = 0;
    let mut class: u8 = 0;
    let mut count: usize = 0;
    while at < list.len() {
        let e = entry_at(list, at);
        if list.len() < e.next {
            return false;
        }
        let start = e.start;
        let end = e.end;
        if !is_lawful(e.class, &list[start..end], e.delimiter) {
            return false;
        }
        if e.class < class {
            return false;
        }
        if e.class == class {
            if count == MAX_OF_CLASS {
                return false;
            }
            count += 1;
        } else {
            class = e.class;
            count = 1;
        }
        at = e.next;
    }
    true
}

// `* NAMESPACE`, the three classes, CR LF. Each local is the place behind what it names.
pub fn put_namespaces(buf: &mut [u8], at: usize, list: &[u8]) -> usize
    ensures { Put buf.old buf.new at (namespace_line (entries list.now)) result }
{
    let head = put_all(buf, at, b"* NAMESPACE");
    let personal = put_class(buf, head, list, 0);
    let others = put_class(buf, personal, list, 1);
    let shared = put_class(buf, others, list, 2);
    put_all(buf, shared, b"\r\n")
}

// The entry that begins at a place of the list. Its prefix ends with the list at the latest.
fn entry_at(list: &[u8], at: usize) -> Entry
    requires { at < length list.now }
    ensures { EntryAt list.now at result }
{
    let start = at + 2;
    let end = start + wide(byte_at(list, at + 1));
    Entry {
        class: list[at],
        start: least(start, list.len()),
        end: least(end, list.len()),
        delimiter: byte_at(list, end),
        next: end + 1,
    }
}

// "class (0 personal, 1 other users, 2 shared), prefix length 0 to 64, prefix of bytes 20 to 7E, delimiter (0 for NIL, or 21 to 7E)"
fn is_lawful(class: u8, prefix: &[u8], delimiter: u8) -> bool
    ensures { result ≡ lawful_entry (entry_of class prefix.now delimiter) }
{
    let sign = (delimiter == 0) | ((FIRST_DELIMITER <= delimiter) & (delimiter <= LAST_PRINTED));
    (class <= MAX_CLASS) & (prefix.len() <= MAX_PREFIX) & is_printable(prefix) & sign
}

// Whether every byte is 20 to 7E.
fn is_printable(s: &[u8]) -> bool
    ensures { result ≡ all (within 32 126) s.now }
{
    s.iter().all(|b| FIRST_PRINTED <= *b && *b <= LAST_PRINTED)
}

// A class: ` NIL`, or its entries in parentheses.
fn put_class(buf: &mut [u8], at: usize, list: &[u8], class: u8) -> usize
    ensures { Put buf.old buf.new at (class_text (of_class class (entries list.now))) result }
{
    if count_of(list, class) < 1 {
        return put_all(buf, at, b" NIL");
    }
    let open = put_all(buf, at, b" (");
    let shown = put_entries(buf, open, list, class);
    put(buf, shown, b')')
}

// How many entries of the class the list has.
fn count_of(list: &[u8], class: u8) -> usize
    ensures { result ≡ length (of_class class (entries list.now)) }
{
    let mut count: usize = 0;
    let mut at = 0;
    while at < list.len() {
        let e = entry_at(list, at);
        if e.class == class {
            count += 1;
        }
        at = e.next;
    }
    count
}

// The entries of the class, one behind the other.
fn put_entries(buf: &mut [u8], at: usize, list: &[u8], class: u8) -> usize
    ensures { Put buf.old buf.new at (entries_text (of_class class (entries list.now))) result }
{
    let mut to = at;
    let mut i = 0;
    while i < list.len() {
        let e = entry_at(list, i);
        if e.class == class {
            let start = e.start;
            let end = e.end;
            to = put_entry(buf, to, &list[start..end], e.delimiter);
        }
        i = e.next;
    }
    to
}

// An entry, such as `("#mh/" "/")`; its class does not show.
fn put_entry(buf: &mut [u8], at: usize, prefix: &[u8], delimiter: u8) -> usize
    ensures { Put buf.old buf.new at (entry_text (entry_of 0 prefix.now delimiter)) result }
{
    let open = put(buf, at, b'(');
    let name = put_quoted(buf, open, prefix);
    let space = put(buf, name, b' ');
    let sign = put_delimiter(buf, space, delimiter);
    put(buf, sign, b')')
}

// A delimiter in quotes, or NIL for 0.
fn put_delimiter(buf: &mut [u8], at: usize, delimiter: u8) -> usize
    ensures { Put buf.old buf.new at (delimiter_text delimiter) result }
{
    if delimiter == 0 {
        return put_all(buf, at, b"NIL");
    }
    let one = [delimiter];
    put_quoted(buf, at, &one)
}
