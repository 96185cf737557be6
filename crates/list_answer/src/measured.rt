// An answer that is measured before it is written.
ghost use Rattle.std.specs.Prelude.{List, ℕ};
ghost use Rattle.listing_rules.specs.Server.{answered};
ghost use Rattle.octets.specs.Put.{Put};
ghost use Rattle.octets.specs.Written.{Gives};

use octets::Refusal;

// What an answer is made from.
pub trait Answer: Copy {
    // The text of the answer, and what it has to be made from for that to be owed.
    ghost text: { Self → List ℕ };

    ghost is_ready: { Self → Type 0 };

    // The answer at the front of any buffer, as far as it goes.
    fn put(self, buf: &mut [u8]) -> usize
        ensures { is_ready self → Put buf.old buf.new 0 (text self) result };
}

// An answer at the front of the buffer. It is put over no buffer first, so that an answer longer than its buffer changes no byte of it.
pub fn write_measured<A: Answer>(answer: A, out: &mut [u8]) -> Result<usize, Refusal>
    ensures { A.is_ready answer → Gives (answered (A.text answer)) out.old out.new result }
{
    let mut none = [0u8; 0];
    let need = answer.put(&mut none);
    if out.len() < need {
        return Err(Refusal::ShortBuffer);
    }
    Ok(answer.put(out))
}
