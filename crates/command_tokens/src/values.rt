// The value of an option: items parted by single spaces, each an astring or a value in parentheses.

ghost use Rattle.std.specs.Prelude.{◌≡◌, drop};
ghost use Rattle.command_tokens.specs.Tokens.{behind_is, BehindIn};
ghost use Rattle.command_tokens.specs.Values.{value_of, string_item};

use crate::Cursor;
use octets::byte_at;

impl Cursor {
    // astring, as an item of a value
    fn item(self, text: &[u8]) -> Option<Cursor>
        ensures result_value { behind_is text.now result ≡ string_item (drop self.at text.now) }
        ensures behind_in { BehindIn text.now self.at result }
    {
        let (_, next) = self.astring(text)?;
        Some(next)
    }

    // value = item *(SP item) ")", after the opening parenthesis; item = astring / "(" value
    //
    // The loop reads the items of one level, and the method calls itself at an inner parenthesis alone. So values nest as deep as the
    // line allows, and the stack holds a small frame for each parenthesis that is open.
    pub fn value(self, text: &[u8]) -> Option<Cursor>
        ensures result_value { behind_is text.now result ≡ value_of (drop self.at text.now) }
        ensures behind_in { BehindIn text.now self.at result }
    {
        let mut at = self.at;

        // A `for` would be no plainer: the place goes on by what each item takes of the line.
        loop {
            let next = if byte_at(text, at) == b'(' {
                Cursor { at: at + 1 }.value(text)?
            } else {
                Cursor { at }.item(text)?
            };
            let end = next.at;
            let b = byte_at(text, end);
            if b == b')' {
                return Some(Cursor { at: end + 1 });
            }
            if b != b' ' {
                return None;
            }
            at = end + 1;
        }
    }
}
