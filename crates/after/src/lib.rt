// The distances of a part's reads after the summary of all that was read before it.
#![tactic(auto)]

mod passes;

ghost use Rattle.std.specs.Prelude.{◌≡◌};
ghost use Rattle.after.specs.Calls.{after_call};

use reuse::Refusal;
use summary_formed::Parts;

// One word a read at the front of `out`: its distance in the whole log, or for a cold read 65,536 plus its number, which counts the prefix's extents too.
pub fn distances(prefix: &[u32], reads: &[u32], out: &mut [u32]) -> Result<usize, Refusal>
    ensures { (result ≡ (after_call prefix.now reads.now out.old).answer) × (out.new ≡ (after_call prefix.now reads.now out.old).buffer) }
{
    let Some(prefix) = Parts::of(prefix) else {
        return Err(Refusal::NotASummary);
    };
    let left = (reuse::MAX_READS - prefix.reads) as usize;
    if left < reads.len() {
        return Err(Refusal::TooManyReads);
    }
    let extents = reuse_tables::extents_with(prefix.first, reads);
    if reuse::MAX_EXTENTS < extents {
        return Err(Refusal::TooManyExtents);
    }
    if out.len() < reads.len() {
        return Err(Refusal::NoRoom);
    }
    let mut stack = reuse_copies::padded(prefix.recent);
    passes::trace(&mut stack, prefix.recent.len(), reads, out);
    Ok(reads.len())
}
