// The smallest cache for a miss allowance.
#![tactic(auto)]

ghost use Rattle.std.specs.Prelude.{◌≡◌};
ghost use Rattle.allowance_calls.specs.Search.{searched};
ghost use Rattle.allowance_calls.specs.Calls.{smallest_call};
ghost use Rattle.allowance.specs.Searching.{Searchable, found_by};

pub use allowance_calls::SmallestCache;
use reuse::Refusal;
use summary_formed::Parts;

// The smallest size of a cache that misses no more often than this, and how many words of H the search for it read.
pub fn smallest(words: &[u32], misses: u32) -> Result<SmallestCache, Refusal>
    ensures { result ≡ smallest_call words.now misses }
{
    let Some(parts) = Parts::of(words) else {
        return Err(Refusal::NotASummary);
    };
    let cold = parts.first.len() as u32;
    let below = misses < cold;
    if below {
        return Err(Refusal::BelowCold);
    }
    Ok(search(parts.counts, parts.reads, misses))
}

// H from distance 1 upwards: each word read takes its reads from the misses, until no more than these are left.
fn search(counts: &[u32], reads: u32, misses: u32) -> SmallestCache
    requires { Searchable counts.now reads }
    ensures { result ≡ found_by (searched misses reads counts.now) }
{
    let mut left = reads;
    let mut size: u32 = 0;
    let mut words_read: u32 = 0;
    for &count in counts {
        if left <= misses {
            break;
        }
        left -= count;
        words_read += 1;
        size += 1;
    }
    SmallestCache { size, words_read }
}
