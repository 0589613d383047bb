// Summaries as words in lent memory.
ghost use Rattle.std.specs.Prelude.{◌≡◌};
ghost use Rattle.summary_calls.specs.Calls.{trace_call, join_call, misses_call, share_call};
ghost use Rattle.after.specs.Calls.{after_call};
ghost use Rattle.capi_answers.specs.Answers.{counted, shared, share_left};

// The summary of a list of reads, at the front of `out`: how many words.
#[unsafe(no_mangle)]
pub extern "C" fn jemqolu_summarize(reads: &[u32], out: &mut [u32]) -> i64
    ensures { (result ≡ counted (trace_call reads.now out.old).answer) × (out.new ≡ (trace_call reads.now out.old).buffer) }
{
    capi_answers::count(summary::of_trace(reads, out))
}

// The summary of A, then B, at the front of `out`: how many words.
#[unsafe(no_mangle)]
pub extern "C" fn jemqolu_join(a: &[u32], b: &[u32], out: &mut [u32]) -> i64
    ensures { (result ≡ counted (join_call a.now b.now out.old).answer) × (out.new ≡ (join_call a.now b.now out.old).buffer) }
{
    capi_answers::count(summary::join(a, b, out))
}

// The distances of a part's reads after the summary of all that was read before, at the front of `out`: how many words.
#[unsafe(no_mangle)]
pub extern "C" fn jemqolu_distances(prefix: &[u32], reads: &[u32], out: &mut [u32]) -> i64
    ensures { (result ≡ counted (after_call prefix.now reads.now out.old).answer) × (out.new ≡ (after_call prefix.now reads.now out.old).buffer) }
{
    capi_answers::count(after::distances(prefix, reads, out))
}

// The misses of a cache of this size.
#[unsafe(no_mangle)]
pub extern "C" fn jemqolu_misses(words: &[u32], size: u32) -> i64
    ensures { result ≡ counted (misses_call words.now size) }
{
    capi_answers::number(summary::misses(words, size))
}

// The hit share of a cache of this size, left in its place: 1, or 0 for 'no reads'.
#[unsafe(no_mangle)]
pub extern "C" fn jemqolu_share(words: &[u32], size: u32, share: &mut f64) -> i64
    ensures { (result ≡ shared (share_call words.now size)) × (share.new ≡ share_left (share_call words.now size) share.old) }
{
    capi_answers::share(summary::share(words, size), share)
}
