// The lines that the server sends beside the library's answers, and the tag of a line. No public function asks anything of its caller.
#![tactic(auto)]

mod lines;
mod refusals;
mod tags;

pub use lines::{put_closing, put_untagged, put_welcome};
pub use refusals::put_refusal;
