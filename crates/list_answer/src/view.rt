// What an answer is made from.
use super::question::Question;

// The rows with their marks over the area of their names, the packed patterns, and the question.
#[derive(Clone, Copy)]
pub(crate) struct View<'a> {
    pub(crate) area: &'a [u8],
    pub(crate) words: &'a [u64],
    pub(crate) patterns: &'a [u8],
    pub(crate) question: Question,
}
