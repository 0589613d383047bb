// The join of two summaries.
#![tactic(auto)]

ghost use Rattle.std.specs.Prelude.{◌≡◌};
ghost use Rattle.summary_calls.specs.Calls.{join_call};

use reuse::{MAX_EXTENTS, MAX_READS, Refusal};
use summary_formed::Parts;

// The summary of A, then B, at the front of `out`.
pub fn join(a: &[u32], b: &[u32], out: &mut [u32]) -> Result<usize, Refusal>
    ensures { (result ≡ (join_call a.now b.now out.old).answer) × (out.new ≡ (join_call a.now b.now out.old).buffer) }
{
    let Some(a) = Parts::of(a) else {
        return Err(Refusal::NotASummary);
    };
    let Some(b) = Parts::of(b) else {
        return Err(Refusal::NotASummary);
    };
    let reads = a.reads + b.reads;
    let extents = reuse_tables::extents_with(a.first, b.first);
    if MAX_READS < reads {
        return Err(Refusal::TooManyReads);
    }
    if MAX_EXTENTS < extents {
        return Err(Refusal::TooManyExtents);
    }
    let first = reuse_tables::beside(a.first, b.first);
    let recent = reuse_tables::beside(b.recent, a.recent);
    let counts = summary_cross::counts(a.recent, b.first, a.counts, b.counts);
    summary_words::write(
        reads,
        &first[..extents],
        &recent[..extents],
        &counts[..extents],
        out,
    )
}
