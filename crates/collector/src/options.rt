// The options of a walk. The option byte is a set with named members; a lawful one is turned into what it asks for at the
// border, and everything after that goes by the options alone.
ghost use Rattle.std.specs.Prelude.{◌≡◌, ok_or};
ghost use Rattle.listing_rules.specs.Walk.{lawful_byte};
ghost use Rattle.octets.specs.declared.refusals.Refusal.TheVariants.{UnknownOption};
ghost use Rattle.collector.specs.Options.{with_subscribed, with_special_use, criteria_of, asked_by};

use octets::{Members, Refusal};

// The option byte: a set with named members.
#[derive(Clone, Copy)]
pub(crate) struct OptionByte {
    pub bits: u8,
}

// The criteria of a walk. RECURSIVEMATCH is never alone: one criterion at least stands beside it.
#[derive(Clone, Copy)]
pub(crate) enum WalkCriteria {
    Subscribed,
    Both,
    SpecialUse,
}

// What a walk selects beside RECURSIVEMATCH: one of six, as there are six lawful option bytes.
#[derive(Clone, Copy)]
pub(crate) struct WalkOptions {
    pub criteria: WalkCriteria,
    pub remote: bool,
}

// The options of a lawful byte, and refusal 6 for any other.
impl TryFrom<u8> for WalkOptions {
    type Error = Refusal;

    ghost try_from_gives = { λ byte r. r ≡ ok_or (asked_by byte) UnknownOption };

    fn try_from(byte: u8) -> Result<WalkOptions, Refusal> {
        let set = OptionByte { bits: byte };
        if !set.lawful() {
            return Err(Refusal::UnknownOption);
        }
        let criteria = set.criteria();
        let remote = set.has(OptionByte::REMOTE);
        Ok(WalkOptions { criteria, remote })
    }
}

impl WalkOptions {
    // Whether SUBSCRIBED is selected.
    pub(crate) fn subscribed(self) -> bool
        ensures { result ≡ with_subscribed self.criteria }
    {
        match self.criteria {
            WalkCriteria::Subscribed | WalkCriteria::Both => true,
            WalkCriteria::SpecialUse => false,
        }
    }

    // Whether SPECIAL-USE is selected.
    pub(crate) fn special_use(self) -> bool
        ensures { result ≡ with_special_use self.criteria }
    {
        match self.criteria {
            WalkCriteria::Subscribed => false,
            WalkCriteria::Both | WalkCriteria::SpecialUse => true,
        }
    }
}

impl Members for OptionByte {
    ghost number = { λ s. s.bits };

    ghost width = { 8 };

    fn number(self) -> u16 {
        u16::from(self.bits)
    }

    fn of_number(n: u16) -> OptionByte {
        OptionByte {
            bits: (n % 256) as u8,
        }
    }
}

impl OptionByte {
    pub(crate) const REMOTE: OptionByte = OptionByte { bits: 1 };

    pub(crate) const SPECIAL_USE: OptionByte = OptionByte { bits: 2 };

    pub(crate) const WITHOUT_SUBSCRIBED: OptionByte = OptionByte { bits: 4 };

    pub(crate) const ALL: OptionByte = OptionByte { bits: 7 };

    // Whether it has no members but these, and drops SUBSCRIBED only where SPECIAL-USE is selected.
    pub(crate) fn lawful(self) -> bool
        ensures { result ≡ lawful_byte self.bits }
    {
        let known = self.bits <= OptionByte::ALL.bits;
        let beside = !self.has(OptionByte::WITHOUT_SUBSCRIBED) | self.has(OptionByte::SPECIAL_USE);
        known & beside
    }

    // The criteria of a lawful byte.
    fn criteria(self) -> WalkCriteria
        ensures { result ≡ criteria_of self.bits }
    {
        if self.has(OptionByte::WITHOUT_SUBSCRIBED) {
            return WalkCriteria::SpecialUse;
        }
        if self.has(OptionByte::SPECIAL_USE) {
            return WalkCriteria::Both;
        }
        WalkCriteria::Subscribed
    }
}
