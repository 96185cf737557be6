// The criteria that CHILDINFO names: a set with named members.
ghost use Rattle.std.specs.Prelude.{◌≡◌};
ghost use Rattle.listing_rules.specs.Options.{is_none, lawful_criteria, criteria_of, criteria_number};
ghost use Rattle.list_line.specs.CriteriaSets.{these};

use octets::Members;

// Member k is 2 to the k. A set with another bit is not lawful, and no line has it: the line writer refuses it.
#[derive(Clone, Copy)]
pub struct Criteria {
    pub bits: u8,
}

impl Members for Criteria {
    ghost number = { λ s. s.bits };

    ghost width = { 8 };

    fn number(self) -> u16 {
        u16::from(self.bits)
    }

    fn of_number(n: u16) -> Criteria {
        Criteria {
            bits: (n % 256) as u8,
        }
    }
}

impl Criteria {
    pub const NONE: Criteria = Criteria { bits: 0 };

    pub const SUBSCRIBED: Criteria = Criteria { bits: 1 };

    pub const SPECIAL_USE: Criteria = Criteria { bits: 2 };

    // Both: the largest lawful set.
    const ALL: Criteria = Criteria { bits: 3 };

    // The set of those that are named.
    #[tactic(auto, unfolding(listing_rules::specs::Options::criteria_number))]
    pub fn of(subscribed: bool, special: bool) -> Criteria
        ensures { result.bits ≡ criteria_number (these subscribed special) }
    {
        match (subscribed, special) {
            (true, true) => Criteria::ALL,
            (true, false) => Criteria::SUBSCRIBED,
            (false, true) => Criteria::SPECIAL_USE,
            (false, false) => Criteria::NONE,
        }
    }

    // Whether it has no members but these two.
    #[tactic(auto, unfolding(listing_rules::specs::Options::lawful_criteria))]
    pub fn lawful(self) -> bool
        ensures { result ≡ lawful_criteria self.bits }
    {
        self.bits <= Criteria::ALL.bits
    }

    // Whether no criterion is in: the line has no CHILDINFO.
    pub fn is_none(self) -> bool
        ensures { result ≡ is_none (criteria_of self.bits) }
    {
        !(self.has(Criteria::SUBSCRIBED) | self.has(Criteria::SPECIAL_USE))
    }
}
