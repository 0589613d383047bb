// The test of customers' summaries that stand end to end, made on all of them before a store is split.
#![tactic(auto)]

ghost use Rattle.std.specs.Prelude.{◌≡◌};
ghost use Rattle.split_calls.specs.Cuts.{cut_summaries};
ghost use Rattle.split_calls.specs.Calls.{all_formed};

use reuse::MAX_EXTENTS;

// Whether the words, cut into as many summaries as there are customers, are well-formed summaries all.
pub fn all_formed(words: &[u32], customers: usize) -> bool
    ensures { result ≡ all_formed (cut_summaries customers words.now) }
{
    if customers == 0 {
        return true;
    }
    let mut rest = words;
    for _ in 1..customers {
        if rest.len() < 2 {
            return false;
        }
        let v = rest[1] as usize;
        if MAX_EXTENTS < v {
            return false;
        }
        let own = 2 + 3 * v;
        if rest.len() < own {
            return false;
        }
        if !summary_formed::well_formed(&rest[..own]) {
            return false;
        }
        rest = &rest[own..];
    }
    summary_formed::well_formed(rest)
}
