// A session's summary written out, its misses and its hit share.
#![tactic(auto)]

ghost use Rattle.std.specs.Prelude.{◌≡◌, true};
ghost use Rattle.reuse.specs.Summary.{hits_of};
ghost use Rattle.session.specs.Sessions.{sound};
ghost use Rattle.session_summary.specs.Summaries.{session_words, summary_call, misses_call, share_call};

use reuse::Refusal;
use session::Session;
use summary_calls::HitShare;

// The summary's words at the front of the lent buffer, or the refusal.
pub fn summary(s: Session, out: &mut [u32]) -> Result<usize, Refusal>
    ensures { (result ≡ (summary_call s out.old).answer) × (out.new ≡ (summary_call s out.old).buffer) }
{
    if !s.sound() {
        return Err(Refusal::Unsound);
    }
    let count = s.count;
    let v = count as usize;
    let mut marks = [0u32; reuse::SLOTS];
    session_points::work_out(count, &s.rights, &mut marks);
    let marked = session_marks::gather(&s.slots, &marks);
    let recent = reuse_copies::turned(&marked[..v]);
    let first = s.first;
    let counts = s.hist;
    summary_words::write(s.reads, &first[..v], &recent[..v], &counts[..v], out)
}

// The reads of a distance of at most `size`.
fn hits(s: Session, size: u32) -> u32
    requires { sound s ≡ true }
    ensures { result ≡ hits_of (session_words s) size }
{
    let n = s.count.min(size) as usize;
    let hist = s.hist;
    reuse_rows::total(&hist[..n]) as u32
}

// The misses of a cache of this size, or the refusal.
pub fn misses(s: Session, size: u32) -> Result<u32, Refusal>
    ensures { result ≡ misses_call s size }
{
    if s.sound() {
        Ok(s.reads - hits(s, size))
    } else {
        Err(Refusal::Unsound)
    }
}

// The share of hits of a cache of this size, of the reads that some size could have served, or the refusal.
pub fn share(s: Session, size: u32) -> Result<HitShare, Refusal>
    ensures { result ≡ share_call s size }
{
    if !s.sound() {
        return Err(Refusal::Unsound); // no share of an unsound session
    }
    let reads = s.reads;
    let servable = reads - s.count;
    let hit = hits(s, size);
    Ok(summary_counts::share_of(hit, servable))
}
