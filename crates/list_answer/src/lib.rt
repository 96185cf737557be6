// The lines of a LIST or LSUB answer: which names are listed, with which attributes, in which order.
//
// Rows ascend by name, so the names to look at are, at each row, the beginnings of its name that are longer than what it shares with
// the name before. Among them is every candidate, an implied Foo before Foo-x too, though only Foo/Bar implies it. What a row is
// marked with (it meets the criteria, it meets them and matches no pattern, it counts as a child, it matches) is found once a command;
// whether something below a name is so marked is one scan of the rows that begin with that name.
#![tactic(auto)]

mod answer;
mod attributes;
mod decide;
mod marks;
mod measured;
mod members;
mod question;
mod view;

pub use answer::{write_list, write_lsub};
pub use measured::{Answer, write_measured};
