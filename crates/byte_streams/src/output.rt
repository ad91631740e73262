//! Bytes handed to a sink.
ghost use Rattle.std.specs.Prelude.{OnOk, OnErr};
ghost use Rattle.byte_streams.specs.Stands.{TookAll, FailedAfterFront};

use crate::device::Sink;

/// A write failed, or took nothing.
#[derive(Clone, Copy, PartialEq, Eq, Debug)]
pub struct SinkFailed;

/// Hands all of `bytes` to `sink`, by as many writes as it takes. `SinkFailed` if a write fails or takes nothing:
/// that write is the last, and `sink` has taken a front of `bytes`. Takes no memory.
///
/// ```text
/// let mut sink = TestSink::new(alloc, 8, 3, 0)?;
/// hand_out(b"abcdefg", &mut sink)    Ok(()), by three writes
/// sink.bytes()                       b"abcdefg"
/// ```
pub fn hand_out<S: Sink>(bytes: &[u8], sink: &mut S) -> Result<(), SinkFailed>
    ensures ok { OnOk result (TookAll (S.stand sink.old) (S.stand sink.new) bytes.now) }
    ensures err { OnErr result (FailedAfterFront (S.stand sink.old) (S.stand sink.new) bytes.now) }
{
    let mut rest = bytes;
    while !rest.is_empty() {
        let Ok(count) = sink.write(rest) else {
            return Err(SinkFailed);
        };
        if count == 0 {
            return Err(SinkFailed);
        }
        rest = &rest[count..];
    }
    Ok(())
}
