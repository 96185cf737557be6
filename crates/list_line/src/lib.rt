// LIST lines: the set of the sixteen attributes, the set of criteria that CHILDINFO names, the text of a line, and the line writer;
// and LSUB lines, which differ in their word alone. What reads a line is the crate `line_reader`.
//
// The texts of a line stand once, in `texts`, for the writers and that reader. The server's answers and the line writer write a
// line by the same function.
#![tactic(auto)]

pub mod attributes;
pub mod criteria;
pub mod texts;
pub mod words;
pub mod write;

pub use attributes::Attributes;
pub use criteria::Criteria;
pub use words::LineWord;
pub use write::{put_line, put_ok_line, put_root_line, write_line};
