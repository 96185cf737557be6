// Sets of named members, each kept as a number: member k is 2 to the k.
ghost use Rattle.std.specs.Prelude.{◌≡◌, ℕ, ◌<◌, ◌%◌, ◌^◌};
ghost use Rattle.octets.specs.Sets.{contains, union, touches};

// A set of named members, at most sixteen.
pub trait Members: Copy {
    // What is kept of the set: the sum of its members.
    ghost number: { Self → ℕ };

    // How many members there may be.
    ghost width: { ℕ };

    fn number(self) -> u16
        ensures value { result ≡ number self }
        ensures below { result < 2 ^ width };

    // The set of those members of a number that there may be.
    fn of_number(n: u16) -> Self
        ensures { number result ≡ n % 2 ^ width };

    // What is in either set.
    final fn union(self, other: Self) -> Self
        ensures { number result ≡ union (number self) (number other) }
    {
        Self::of_number(self.number() | other.number())
    }

    // Whether every one of these members is in the set.
    final fn has(self, members: Self) -> bool
        ensures { result ≡ contains (number self) (number members) }
    {
        self.number() & members.number() == members.number()
    }

    // Whether some of these members are in the set.
    final fn has_some(self, members: Self) -> bool
        ensures { result ≡ touches (number self) (number members) }
    {
        self.number() & members.number() != 0
    }
}
