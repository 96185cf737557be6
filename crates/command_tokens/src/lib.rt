// The tokens of a command line, read from left to right, one byte at a time.
//
// A `Cursor` is a place in the line, by value. Its methods give the token that stands there and the cursor after it, or nothing. A
// token holds no bytes of its own: it is a span of the line. No function asks anything of its caller.
#![tactic(auto)]

mod literals;
mod spans;
mod tokens;
mod values;

pub use spans::{put_span, raw, span_len};

// A part of the line, from start up to end. The span of a quoted string is what stands between its quotes, escapes and all; that of a
// literal is its bytes after the header.
//
// `quoted` is a flag, as an enum would be no plainer: both kinds have the same two places, and differ in their escapes alone.
#[derive(Clone, Copy)]
pub struct Span {
    pub start: usize,
    pub end: usize,
    pub quoted: bool,
}

// A place in the line.
#[derive(Clone, Copy)]
pub struct Cursor {
    pub at: usize,
}

impl Span {
    // No part of the line.
    pub const NOWHERE: Span = Span {
        start: 0,
        end: 0,
        quoted: false,
    };
}
