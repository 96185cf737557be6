// The patterns of a command: eight places, of which one is changed as each pattern is read; and their canonical forms, the reference
// followed by the pattern, which are measured and put into a buffer.
//
// A pattern holds no bytes of its own: it is a span of the line. No function asks anything of its caller.
#![tactic(auto)]

mod canonical;
mod places;

pub use canonical::{measure, put_patterns};
use command_tokens::Span;
pub use places::read_patterns;

// "At most 8 patterns, empty ones counted."
pub const MAX_PATTERNS: usize = 8;

// The places of the patterns that were read, and how many they are: nine where there are more than eight.
//
// A list that knows its length would be no plainer: the ninth pattern is counted, and has no place.
#[derive(Clone, Copy)]
pub struct Patterns {
    pub spans: [Span; MAX_PATTERNS],
    pub count: usize,
}

// How many canonical patterns a command has, and whether each is short enough; no Option, since `measure` promises both.
#[derive(Clone, Copy)]
pub struct Measured {
    pub count: usize,
    pub fit: bool,
}
