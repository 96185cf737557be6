// The flags of a row: a set of named members, bit by bit as document 01 numbers them.
ghost use Rattle.std.specs.Prelude.{◌≡◌};
ghost use Rattle.listing_rules.specs.Flags.{lawful_flags, has_use};

use octets::Members;

#[derive(Clone, Copy, PartialEq, Eq)]
pub struct Flags {
    pub bits: u16,
}

impl Members for Flags {
    ghost number = { λ s. s.bits };

    ghost width = { 16 };

    fn number(self) -> u16 {
        self.bits
    }

    fn of_number(n: u16) -> Flags {
        Flags { bits: n }
    }
}

impl Flags {
    // The empty set, which is what an implied name has.
    pub const NONE: Flags = Flags { bits: 0 };

    pub const EXISTS: Flags = Flags { bits: 1 };

    pub const SUBSCRIBED: Flags = Flags { bits: 2 };

    pub const REMOTE: Flags = Flags { bits: 4 };

    pub const NO_SELECT: Flags = Flags { bits: 8 };

    pub const NO_INFERIORS: Flags = Flags { bits: 16 };

    pub const MARKED: Flags = Flags { bits: 32 };

    pub const UNMARKED: Flags = Flags { bits: 64 };

    pub const ALL: Flags = Flags { bits: 256 };

    pub const ARCHIVE: Flags = Flags { bits: 512 };

    pub const DRAFTS: Flags = Flags { bits: 1024 };

    pub const FLAGGED: Flags = Flags { bits: 2048 };

    pub const JUNK: Flags = Flags { bits: 4096 };

    pub const SENT: Flags = Flags { bits: 8192 };

    pub const TRASH: Flags = Flags { bits: 16384 };

    // The seven special uses.
    const USES: Flags = Flags {
        bits: Flags::ALL.bits
            | Flags::ARCHIVE.bits
            | Flags::DRAFTS.bits
            | Flags::FLAGGED.bits
            | Flags::JUNK.bits
            | Flags::SENT.bits
            | Flags::TRASH.bits,
    };

    // The bits that no member has, 7 and 15.
    const UNNAMED: Flags = Flags {
        bits: u16::MAX
            ^ (Flags::EXISTS.bits
                | Flags::SUBSCRIBED.bits
                | Flags::REMOTE.bits
                | Flags::NO_SELECT.bits
                | Flags::NO_INFERIORS.bits
                | Flags::MARKED.bits
                | Flags::UNMARKED.bits
                | Flags::USES.bits),
    };

    // Whether some special use is in the set.
    pub fn has_use(self) -> bool
        ensures { result ≡ has_use self.bits }
    {
        self.has_some(Flags::USES)
    }

    // Whether a row may have these flags.
    pub fn lawful(self) -> bool
        ensures { result ≡ lawful_flags self.bits }
    {
        // A row that does not exist is subscribed and nothing else.
        let stands = self.has(Flags::EXISTS) | (self == Flags::SUBSCRIBED);
        let both_marks = self.has(Flags::MARKED) & self.has(Flags::UNMARKED);
        !self.has_some(Flags::UNNAMED) & stands & !both_marks
    }
}
