// The feeder under C names.
ghost use Rattle.octets.specs.Put.{Put};
ghost use Rattle.listing_rules.specs.Feeder.{go_on_line};
ghost use Rattle.exports.specs.Feeding.{FeedsChunk};

use exports::feeding::{FedChunk, FeederState};

// The bytes of a chunk, through the first that something comes of, or all.
#[unsafe(no_mangle)]
pub extern "C" fn luspemaro_feed(state: FeederState, command: &mut [u8], chunk: &[u8]) -> FedChunk
    ensures { FeedsChunk state command.old command.new chunk.now result }
{
    exports::feeding::luspemaro_feed(state, command, chunk)
}

// The continuation line, at a place of the buffer; the place after it.
#[unsafe(no_mangle)]
pub extern "C" fn luspemaro_put_go_on(out: &mut [u8], at: usize) -> usize
    ensures { Put out.old out.new at go_on_line result }
{
    exports::feeding::luspemaro_put_go_on(out, at)
}
