// The attributes of a LIST line: a set with named members.
ghost use Rattle.std.specs.Prelude.{◌≡◌};
ghost use Rattle.list_line.specs.Members.{set_of};

use octets::Members;

// Member k is 2 to the k, in the order of document 01.
#[derive(Clone, Copy, PartialEq, Eq)]
pub struct Attributes {
    pub bits: u16,
}

impl Members for Attributes {
    ghost number = { λ s. s.bits };

    ghost width = { 16 };

    fn number(self) -> u16 {
        self.bits
    }

    fn of_number(n: u16) -> Attributes {
        Attributes { bits: n }
    }
}

impl Attributes {
    pub const NONE: Attributes = Attributes { bits: 0 };

    pub const MARKED: Attributes = Attributes { bits: 1 };

    pub const UNMARKED: Attributes = Attributes { bits: 2 };

    pub const NOSELECT: Attributes = Attributes { bits: 4 };

    pub const NO_INFERIORS: Attributes = Attributes { bits: 8 };

    pub const REMOTE: Attributes = Attributes { bits: 16 };

    pub const SUBSCRIBED: Attributes = Attributes { bits: 32 };

    pub const NON_EXISTENT: Attributes = Attributes { bits: 64 };

    pub const ALL: Attributes = Attributes { bits: 128 };

    pub const ARCHIVE: Attributes = Attributes { bits: 256 };

    pub const DRAFTS: Attributes = Attributes { bits: 512 };

    pub const FLAGGED: Attributes = Attributes { bits: 1024 };

    pub const JUNK: Attributes = Attributes { bits: 2048 };

    pub const SENT: Attributes = Attributes { bits: 4096 };

    pub const TRASH: Attributes = Attributes { bits: 8192 };

    pub const HAS_CHILDREN: Attributes = Attributes { bits: 16384 };

    pub const HAS_NO_CHILDREN: Attributes = Attributes { bits: 32768 };

    // The set of those that are shown, the sixteen in their order.
    pub fn of(shown: [bool; 16]) -> Attributes
        ensures { result.bits ≡ set_of shown }
    {
        let mut bits: u16 = 0;
        for (k, is_in) in shown.iter().enumerate() {
            if *is_in {
                bits += 1 << k;
            }
        }
        Attributes { bits }
    }
}
