// Joining plans: a text says how a log is cut and grouped, and the plan is carried out in lent memory.
#![tactic(auto)]

mod evaluation;

ghost use Rattle.std.specs.Prelude.{◌≡◌};
ghost use Rattle.plan_calls.specs.Calls.{run_call, Accepted};

pub use plan_reader::{MAX_BYTES, PlanRead, read};
use reuse::Refusal;

// A plan text carried out on a log: the words of the log's summary at the front of `out`, its parts joined as the plan says.
pub fn run(text: &[u8], log: &[u32], work: &mut [u32], out: &mut [u32]) -> Result<usize, Refusal>
    ensures is { result ≡ (run_call text.now log.now work.old out.old).answer }
    ensures work { work.new ≡ (run_call text.now log.now work.old out.old).work }
    ensures out { out.new ≡ (run_call text.now log.now work.old out.old).out }
{
    let plan = read(text)?;
    if plan.reads != log.len() as u64 {
        return Err(Refusal::WrongTotal);
    }
    carry_out(text, log, work, out, plan.depth)
}

// A plan of this depth whose segs add up to the log.
fn carry_out(
    text: &[u8],
    log: &[u32],
    work: &mut [u32],
    out: &mut [u32],
    depth: usize,
) -> Result<usize, Refusal>
    requires { Accepted text.now log.now depth }
    ensures is { result ≡ (run_call text.now log.now work.old out.old).answer }
    ensures work { work.new ≡ (run_call text.now log.now work.old out.old).work }
    ensures out { out.new ≡ (run_call text.now log.now work.old out.old).out }
{
    if (reuse::MAX_READS as usize) < log.len() {
        return Err(Refusal::TooManyReads);
    }
    let extents = reuse_tables::extents_of(log);
    if reuse::MAX_EXTENTS < extents {
        return Err(Refusal::TooManyExtents);
    }
    let levels = plan_joins::LEVEL * depth;
    if work.len() < levels {
        return Err(Refusal::NoRoom);
    }
    if out.len() < 2 + 3 * extents {
        return Err(Refusal::NoRoom);
    }
    let done = evaluation::evaluate(text, 0, 0, log, 0, depth, work, out);
    reuse_copies::clear(&mut work[..levels]);
    Ok(done.words)
}
