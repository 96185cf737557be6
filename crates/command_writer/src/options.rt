// The options of a LIST command: a set with named members.
ghost use Rattle.std.specs.Prelude.{◌≡◌};
ghost use Rattle.listing_rules.specs.Options.{lawful_options};
ghost use Rattle.listing_rules.specs.Joining.{lawful_set, options_from, returns_any};

use octets::Members;

// Member k is 2 to the k: the four of the selection, then the three of the return options.
#[derive(Clone, Copy)]
pub(crate) struct Options {
    pub bits: u8,
}

impl Members for Options {
    ghost number = { λ s. s.bits };

    ghost width = { 8 };

    fn number(self) -> u16 {
        u16::from(self.bits)
    }

    fn of_number(n: u16) -> Options {
        Options {
            bits: (n % 256) as u8,
        }
    }
}

impl Options {
    pub(crate) const SUBSCRIBED: Options = Options { bits: 1 };

    pub(crate) const REMOTE: Options = Options { bits: 2 };

    pub(crate) const RECURSIVEMATCH: Options = Options { bits: 4 };

    pub(crate) const SPECIAL_USE: Options = Options { bits: 8 };

    pub(crate) const RETURN_SUBSCRIBED: Options = Options { bits: 16 };

    pub(crate) const RETURN_CHILDREN: Options = Options { bits: 32 };

    pub(crate) const RETURN_SPECIAL_USE: Options = Options { bits: 64 };

    // All seven: the largest set.
    const ALL: Options = Options { bits: 127 };

    // Whether it has no members but the seven.
    pub(crate) fn is_known(self) -> bool
        ensures { result ≡ lawful_set self.bits }
    {
        self.bits <= Options::ALL.bits
    }

    // RECURSIVEMATCH stands only beside SUBSCRIBED or SPECIAL-USE.
    pub(crate) fn is_lawful(self) -> bool
        ensures { result ≡ lawful_options (options_from self.bits) }
    {
        let criteria = self.has(Options::SUBSCRIBED) | self.has(Options::SPECIAL_USE);
        !(self.has(Options::RECURSIVEMATCH) & !criteria)
    }

    // Whether it has a return option.
    pub(crate) fn returns_any(self) -> bool
        ensures { result ≡ returns_any (options_from self.bits) }
    {
        let subscribed = self.has(Options::RETURN_SUBSCRIBED);
        let children = self.has(Options::RETURN_CHILDREN);
        subscribed | children | self.has(Options::RETURN_SPECIAL_USE)
    }
}
