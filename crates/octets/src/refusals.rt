// Document 01's refusals, by name. Every crate that refuses takes its refusal from here.
ghost use Rattle.std.specs.Prelude.{◌≡◌};
ghost use Rattle.octets.specs.Refusals.{number_of};

// Why a call is refused: each by its number.
#[derive(Clone, Copy, PartialEq, Eq)]
pub enum Refusal {
    // The mailbox table does not pass, or the program has no room for a row.
    Table = 1,

    // The namespace list does not pass, or the program has no room for an entry.
    Namespaces = 2,

    // The shape of the command line.
    LineShape = 3,

    // The tag, or the rest after a known word, is off the grammar.
    Grammar = 4,

    // Another word than those known.
    Word = 5,

    // An unknown option, one with a value, or an unlawful option byte.
    UnknownOption = 6,

    // RECURSIVEMATCH without a criterion beside it.
    RecursivematchAlone = 7,

    // Over 8 patterns, or a canonical pattern over 255 bytes.
    Patterns = 8,

    // The answer is longer than its buffer.
    ShortBuffer = 9,

    // A find does not fit.
    FoundFull = 10,

    // A pending name does not fit.
    PendingFull = 11,

    // The reader: not such a line. The line writer: not such parts.
    NotSuchLine = 12,

    // The program: a bad frame. The replay: a frame out of turn or unreadable, or an end after a command.
    BadFrame = 13,

    // SUBSCRIBE: an unlawful name, or one below a row with no inferiors.
    UnlawfulName = 14,

    // SUBSCRIBE: 512 rows, no spare record, or no free run of name bytes that is long enough.
    NoRoom = 15,

    // A reader above 7, or an edit from another reader than 0.
    Reader = 16,
}

impl Refusal {
    // The number of the refusal.
    pub fn number(self) -> u8
        ensures { result ≡ number_of self }
    {
        self as u8
    }
}
