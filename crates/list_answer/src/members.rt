// Sets of named members, put together one by one.
ghost use Rattle.std.specs.Prelude.{◌≡◌};
ghost use Rattle.list_answer.specs.Sets.{with_member};

use octets::Members;

// The set with these members, where they hold.
pub(crate) fn with<S: Members>(set: S, holds: bool, members: S) -> S
    ensures { S.number result ≡ with_member (S.number set) holds (S.number members) }
{
    if holds {
        return set.union(members);
    }
    set
}
