//! An input, read to its end.
ghost use Rattle.std.specs.Prelude.{IfOk, IfErr, IsErrOf};
ghost use Rattle.byte_streams.specs.Fair.{IsFairToSource, GaveAtEachButLast};
ghost use Rattle.byte_streams.specs.Stands.{GaveAll, GaveMany};
ghost use Rattle.vod_run.specs.Runs.{OnEnd};
ghost use Rattle.vod_run.specs.Inner.Vod.{IsOfReading};

use crate::fault::VodFault;
use byte_streams::{MAX_READS, READ_ROOM, Source};
use std::alloc::Global;

/// Reads `source` to its end, with room for 8,192 bytes in each read. All bytes are kept, also past the length that a
/// playlist may have: whether they are UTF-8 is judged first. `Read` if a read fails, `TooManyReads` if the 65,536th
/// still gives bytes, `OutOfMemory` if an allocation fails. A read that fails is the last, and so is the one that
/// says that `source` has ended. An empty input takes no memory.
pub fn read_vod_input<S: Source>(alloc: Global, source: &mut S) -> Result<Vec<u8>, VodFault>
    ensures ok { IfOk result (λ input. GaveAll (S.stand source.old)
        (S.stand source.new) input.items) }
    ensures source { IsFairToSource VodFault.Read VodFault.TooManyReads result
        (S.stand source.old) (S.stand source.new) }
    ensures to_end { OnEnd result (GaveAtEachButLast (S.stand source.old) (S.stand source.new)) }
    ensures memory { IsErrOf result VodFault.OutOfMemory →
        GaveMany (S.stand source.old) (S.stand source.new) 1 }
    ensures faults { IfErr result IsOfReading }
{
    let mut input = Vec::new(alloc);
    let mut block = [0u8; READ_ROOM];
    for _ in 0..MAX_READS {
        let Ok(count) = source.read(&mut block) else {
            return Err(VodFault::Read);
        };
        if count == 0 {
            return Ok(input);
        }
        input.extend_from_slice(&block[..count])?;
    }
    Err(VodFault::TooManyReads)
}
