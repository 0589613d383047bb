// Misses and hit share of a summary's words.
#![tactic(auto)]

ghost use Rattle.std.specs.Prelude.{◌≡◌};
ghost use Rattle.summary_calls.specs.Calls.{misses_call, share_of, share_call};

use reuse::Refusal;
use summary_calls::HitShare;
use summary_formed::Parts;

// The misses of a cache of this size.
pub fn misses(words: &[u32], size: u32) -> Result<u32, Refusal>
    ensures { result ≡ misses_call words.now size }
{
    let Some(parts) = Parts::of(words) else {
        return Err(Refusal::NotASummary);
    };
    let served = (size as usize).min(parts.counts.len());
    let hits = reuse_rows::total(&parts.counts[..served]);
    Ok(parts.reads - hits as u32)
}

// The share of hits in a cache of this size, of the reads that some size could have served: of all but the cold ones.
pub fn share(words: &[u32], size: u32) -> Result<HitShare, Refusal>
    ensures { result ≡ share_call words.now size }
{
    let missed = misses(words, size)?;
    let reads = words[0];
    let hits = reads - missed;
    let servable = reads - words[1];
    Ok(share_of(hits, servable))
}
// Hits by the reads that some size could have served, both whole numbers: one division, rounded once.
pub fn share_of(hits: u32, servable: u32) -> HitShare
    ensures { result ≡ share_of hits servable }
{
    if servable == 0 {
        return HitShare::NoReads;
    }
    let part = hits as f64;
    let all = servable as f64;
    HitShare::Share(part / all)
}
