//! What a decision file says.
use crate::escapes::bytes_of;
use decision_files::read_decisions;
use pod_store::{Ad, Decision, Decisions, Pod};
use std::alloc::Global;
use std::hash::RandomState;
use std::io;
use std::io::Print;

// How many segments ads have.
fn segments_of(ads: &[Ad]) -> usize {
    let mut count: usize = 0;
    for ad in ads {
        count = count.saturating_add(ad.segments.len());
    }
    count
}

fn print_break(rt: &impl Print, decision: &Decision) -> io::Result<()> {
    let (id, pod) = decision;
    let (ads, segments, total) = (pod.ads().len(), segments_of(pod.ads()), pod.total().0);
    println!(rt;
        "break {} ads {ads} segments {segments} total {total}",
        id.as_str()
    )
}

fn print_fallback(rt: &impl Print, pod: &Pod) -> io::Result<()> {
    let (ads, segments, total) = (pod.ads().len(), segments_of(pod.ads()), pod.total().0);
    println!(rt; "fallback ads {ads} segments {segments} total {total}")
}

fn print_breaks(rt: &impl Print, breaks: &[Decision]) -> io::Result<()> {
    println!(rt; "decisions")?;
    for decision in breaks {
        print_break(rt, decision)?;
    }
    Ok(())
}

/// Prints what the decision file `body` says: its breaks, a line each, the one that is withdrawn, the fallback, that
/// there is none, or the first fault.
/// `hashing`: the keys for a table of IDs.
pub(crate) fn print_decisions(
    rt: &impl Print,
    alloc: Global,
    hashing: RandomState,
    body: &str,
) -> io::Result<()> {
    match read_decisions(alloc, hashing, bytes_of(alloc, body)?.as_slice()) {
        Ok(Decisions::Breaks(breaks)) => print_breaks(rt, breaks.as_slice()),
        Ok(Decisions::Withdraw(id)) => println!(rt; "withdraw {}", id.as_str()),
        Ok(Decisions::Fallback(pod)) => print_fallback(rt, &pod),
        Ok(Decisions::NoFallback) => println!(rt; "no fallback"),
        Err(fault) => println!(rt; "{fault}"),
    }
}
