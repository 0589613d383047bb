// What one more read put into a trace does to the misses of a cache.
#![tactic(auto)]

mod passes;

ghost use Rattle.std.specs.Prelude.{◌≡◌};
ghost use Rattle.insertion_calls.specs.Calls.{insertion_call};

use reuse::Refusal;

// The misses of a cache of this size with a read of the extent put into the trace at the place, less those without it.
// One stack goes through the trace without the read; marks tell what the read changes, until its extent is read again.
pub fn one_more(trace: &[u32], place: usize, extent: u32, size: u32) -> Result<i64, Refusal>
    ensures { result ≡ insertion_call trace.now place extent size }
{
    let reads = trace.len();
    if reads < place {
        return Err(Refusal::OutOfRange);
    }
    if (reuse::MAX_READS as usize) <= reads {
        return Err(Refusal::TooManyReads);
    }
    let mut stack = [0u32; reuse::MAX_EXTENTS];
    let Some(before) = passes::hold(&mut stack, 0, &trace[..place]) else {
        return Err(Refusal::TooManyExtents);
    };
    let found = passes::ahead(&stack[..before], extent);
    let known = found.is_some();
    let ahead = found.unwrap_or(before);
    let Some(traced) = passes::follow(&mut stack, before, &trace[place..], extent, size, ahead)
    else {
        return Err(Refusal::TooManyExtents);
    };
    let next = place + traced.taken;
    let Some(held) = passes::hold(&mut stack, traced.held, &trace[next..]) else {
        return Err(Refusal::TooManyExtents);
    };
    let again = next < reads;
    let over = reuse::MAX_EXTENTS < passes::extents_with(held, known, again);
    if over {
        return Err(Refusal::TooManyExtents);
    }
    Ok(passes::change(known, again, ahead + 1, traced.marks, size as usize))
}
