// The word of a line: LIST, or LSUB on the lines of an LSUB answer.
ghost use Rattle.std.specs.Prelude.{◌≡◌};
ghost use Rattle.list_line.specs.Words.{start_of};

use super::texts;

#[derive(Clone, Copy)]
pub enum LineWord {
    List,
    Lsub,
}

impl LineWord {
    // How a line with this word begins.
    #[tactic(auto, unfolding(listing_rules::proofs::Keys::open_bytes, crate::specs::Words::start_of))]
    pub(crate) fn start(self) -> [u8; 8]
        ensures { result ≡ start_of self }
    {
        match self {
            LineWord::List => texts::LINE_START,
            LineWord::Lsub => texts::LSUB_START,
        }
    }
}
