// What the program keeps of the table between two frames, in lent memory, and a command or a walk over it.
//
// The table is kept as its packed bytes until the first edit is accepted, and as records with their summary over an area of names from then on: the
// store that the packed bytes become (`store`), and its summary, counted then. Frames, and how they are read, are not known here.
//
// `obey` and `walk_line` look at the sizes of the lent memory first (`sizes`), and do nothing where what is stored does not lie within it.
#![tactic(auto)]

mod commands;
mod outcome;
mod sizes;
mod store;
mod walks;

pub use commands::obey;
pub use outcome::{MAX_NAMESPACES, MAX_TABLE, Outcome, said, with_entries, with_rows};
pub use store::MAX_NUMBERS;
pub use walks::walk_line;

// How many bytes are stored of the table and of the namespace list. Once an edit was accepted, `table` is how many records are rows.
#[derive(Clone, Copy)]
pub struct Lengths {
    pub table: usize,
    pub namespaces: usize,
    pub edited: bool,
}
