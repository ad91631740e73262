//! What the program prints and answers after a run.
ghost use Rattle.std.specs.Prelude.{◌≡◌, ◌≤◌, Err, None};
ghost use Rattle.std.specs.Option.{option_copied};
ghost use Rattle.pod_store.specs.declared.fault.DecisionFault.{DecisionFault};
ghost use Rattle.vod_run.specs.Events.{events_of};
ghost use Rattle.playlist_model.specs.Uri.{base_of};
ghost use Rattle.byte_streams.specs.Stands.{WasHanded};
ghost use Rattle.vod_run.specs.Printed.{vod_fault_line, Succeeds, FailsAndPrints};

use crate::fault::VodFault;
use crate::run::vod;
use arrayvec::ArrayString;
use byte_streams::{Sink, Source, hand_out};
use std::alloc::Global;
use std::hash::RandomState;
use std::mem::forget;

// The most bytes of a fault's line, with its line feed. The longest is that of a fault of a decision file.
const LINE_ROOM: usize = 95;

// A fault's line. It lies in the value itself, since there may be no memory left for it.
fn vod_fault_line(fault: VodFault) -> ArrayString<LINE_ROOM>
    ensures { result.bytes ≡ vod_fault_line fault }
{
    let mut line = ArrayString::<LINE_ROOM>::new();
    line.push_str(fault.text().as_str());
    line.push('\n');
    line
}

// Writes a fault's line, as far as the sink takes it.
fn print_vod_fault<F: Sink>(fault: VodFault, faults: &mut F)
    ensures { WasHanded (F.stand faults.old) (F.stand faults.new) (vod_fault_line fault) }
{
    let line = vod_fault_line(fault);
    let _ = hand_out(line.as_str().as_bytes(), faults);
}

/// Runs `vod` with `base`, `decisions`, `input` and `output`, and gives the exit status: 0, or 1 after a fault, whose
/// line it writes to `faults`. The process ends then, so that the memory of the channel is left to its end.
/// `hashing`: the keys for tables of IDs.
pub fn command_vod<S: Source, K: Sink, F: Sink>(
    alloc: Global,
    hashing: RandomState,
    base: &str,
    decisions: Option<&[u8]>,
    input: &mut S,
    output: &mut K,
    faults: &mut F,
) -> u8
    ensures status { result ≤ 1 }
    ensures ok { result ≡ 0 →
        Succeeds base.now (option_copied decisions.entry) (S.stand input.old) (S.stand input.new)
        (K.stand output.old) (K.stand output.new) }
    ensures quiet { result ≡ 0 → faults.new ≡ faults.old }

    // 1 only if `vod` answers a fault, and then its line is printed.
    ensures fault { result ≡ 1 → FailsAndPrints base.now (option_copied decisions.entry)
        (S.stand input.old) (S.stand input.new) (K.stand output.old) (K.stand output.new)
        (F.stand faults.old) (F.stand faults.new) }

    // The base and the decision file are judged before anything is read.
    ensures unread { base_of base.now ≡ None → input.new ≡ input.old }
    ensures undecided { (fault : DecisionFault) →
        events_of (option_copied decisions.entry) ≡ Err fault → input.new ≡ input.old }
{
    match vod(alloc, hashing, input, output, base, decisions) {
        Ok(channel) => {
            forget(channel);
            0
        }
        Err(fault) => {
            print_vod_fault(fault, faults);
            1
        }
    }
}
