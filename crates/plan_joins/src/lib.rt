// A level's join: two summaries in the work words of one level of joins.
#![tactic(auto)]

ghost use Rattle.std.specs.Prelude.{◌≡◌};
ghost use Rattle.plan_joins.specs.Calls.{join_held};

// The words of the largest summary.
const SUMMARY_WORDS: usize = 2 + 3 * reuse::MAX_EXTENTS;

// The work words of one level of joins: two summaries.
pub const LEVEL: usize = 2 * SUMMARY_WORDS;

// The summary in `out` joined to the one before it, which the first half of the level's words holds; as it is where none is held.
pub fn join_held(work: &mut [u32], held: usize, out: &mut [u32], words: usize) -> usize
    ensures is { result ≡ (join_held work.old held out.old words).words }
    ensures work { work.new ≡ (join_held work.old held out.old words).work }
    ensures out { out.new ≡ (join_held work.old held out.old words).out }
{
    if work.len() < LEVEL {
        return 0;
    }
    if SUMMARY_WORDS < held {
        return 0;
    }
    if SUMMARY_WORDS < words {
        return 0;
    }
    if out.len() < words {
        return 0;
    }
    if held == 0 {
        return words;
    }
    reuse_copies::put(work, SUMMARY_WORDS, &out[..words]);
    let end = SUMMARY_WORDS + words;
    let both = &work[..];
    let first = &both[..held];
    let second = &both[SUMMARY_WORDS..end];
    summary::join(first, second, out).unwrap_or(0)
}
