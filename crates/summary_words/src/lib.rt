// A summary's words written into a lent buffer, from its reads, F, R and H.
#![tactic(auto)]

ghost use Rattle.std.specs.Prelude.{◌≡◌};
ghost use Rattle.reuse.specs.Summary.{words};
ghost use Rattle.reuse_rows.specs.Rows.{put_at};
ghost use Rattle.summary_calls.specs.Calls.{words_call};
ghost use Rattle.summary_words.specs.Parts.{Writable};

use reuse::Refusal;

// The words at the front of `out`, or the refusal: more extents than the limit, or too few words.
pub fn write(
    reads: u32,
    first: &[u32],
    recent: &[u32],
    counts: &[u32],
    out: &mut [u32],
) -> Result<usize, Refusal>
    ensures { (result ≡ (words_call reads first.now recent.now counts.now out.old).answer) × (out.new ≡ (words_call reads first.now recent.now counts.now out.old).buffer) }
{
    if reuse::MAX_EXTENTS < first.len() {
        return Err(Refusal::TooManyExtents);
    }
    let after_first = 2 + first.len();
    if out.len() < after_first {
        return Err(Refusal::NoRoom);
    }
    if out.len() - after_first < recent.len() {
        return Err(Refusal::NoRoom);
    }
    let after_recent = after_first + recent.len();
    if out.len() - after_recent < counts.len() {
        return Err(Refusal::NoRoom);
    }
    put_parts(reads, first, recent, counts, out);
    Ok(after_recent + counts.len())
}

// The parts one after the other, where there is room for all of them.
fn put_parts(reads: u32, first: &[u32], recent: &[u32], counts: &[u32], out: &mut [u32])
    requires { Writable first.now recent.now counts.now out.old }
    ensures { out.new ≡ put_at out.old 0 (words reads first.now recent.now counts.now) }
{
    out[0] = reads;
    out[1] = first.len() as u32;
    let after_first = 2 + first.len();
    let after_recent = after_first + recent.len();
    reuse_copies::put(out, 2, first);
    reuse_copies::put(out, after_first, recent);
    reuse_copies::put(out, after_recent, counts);
}
