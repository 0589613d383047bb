// The summary of a whole trace in one call.
#![tactic(auto)]

ghost use Rattle.std.specs.Prelude.{◌≡◌};
ghost use Rattle.summary_calls.specs.Calls.{trace_call};
ghost use Rattle.summary_trace.specs.Tracing.{Blank, Taken};

use reuse::Refusal;
use reuse_engine::Place;

// The summary of a trace, at the front of `out`.
pub fn of_trace(trace: &[u32], out: &mut [u32]) -> Result<usize, Refusal>
    ensures { (result ≡ (trace_call trace.now out.old).answer) × (out.new ≡ (trace_call trace.now out.old).buffer) }
{
    if (reuse::MAX_READS as usize) < trace.len() {
        return Err(Refusal::TooManyReads);
    }
    let mut stack = [0u32; reuse::MAX_EXTENTS];
    let mut first = [0u32; reuse::MAX_EXTENTS];
    let mut hist = [0u32; reuse::MAX_EXTENTS];
    let held = take(trace, &mut stack, &mut first, &mut hist);
    if reuse::MAX_EXTENTS < held {
        return Err(Refusal::TooManyExtents);
    }
    summary_words::write(
        trace.len() as u32,
        &first[..held],
        &stack[..held],
        &hist[..held],
        out,
    )
}

// The trace is taken from an empty stack: each new extent is listed in `first`, and each distance counted in `hist`.
// The answer is the number of extents, or one more than the limit.
fn take(trace: &[u32], stack: &mut [u32], first: &mut [u32], hist: &mut [u32]) -> usize
    requires { Blank trace.now stack.old first.old hist.old }
    ensures { Taken trace.now stack.new first.new hist.new result }
{
    let mut held: usize = 0;
    for &x in trace {
        match reuse_engine::touch(stack, held, x) {
            Place::Cold => {
                first[held] = x;
                held += 1;
            }
            Place::Depth(d) => hist[d - 1] += 1,
            Place::Full => return reuse::MAX_EXTENTS + 1,
            Place::BadCount => return held,
        }
    }
    held
}
