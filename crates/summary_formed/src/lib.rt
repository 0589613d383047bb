// The parts of a summary's words, and the test of well-formedness, made on every summary handed in.
#![tactic(auto)]

ghost use Rattle.std.specs.Prelude.{◌≡◌, ◌+◌, ◌&&◌, false, eqb, length, take};
ghost use Rattle.std.specs.Option.{ForNone, ForSome};
ghost use Rattle.reuse.specs.Limits.{max_extents};
ghost use Rattle.reuse.specs.Lists.{distinct, all_in, sum};
ghost use Rattle.reuse.specs.Summary.{well_formed};
ghost use Rattle.summary_formed.specs.Parting.{PartsOf};

use reuse::{MAX_EXTENTS, MAX_READS};

// A summary's parts: L; F, R and H, borrowed of its words.
#[derive(Clone, Copy)]
pub struct Parts<'a> {
    pub reads: u32,
    pub first: &'a [u32],
    pub recent: &'a [u32],
    pub counts: &'a [u32],
}

impl<'a> Parts<'a> {
    // The parts of the words; none where they are not a well-formed summary.
    pub fn of(words: &'a [u32]) -> Option<Parts<'a>>
        ensures { ForNone result (well_formed words.now ≡ false) × ForSome result (λ p. PartsOf words.now p) }
    {
        if words.len() < 2 {
            return None;
        }
        let reads = words[0];
        let v = words[1] as usize;
        let many = MAX_EXTENTS < v;
        if many {
            return None;
        }
        if words.len() != 2 + 3 * v {
            return None;
        }
        if MAX_READS < reads {
            return None;
        }
        let recent = 2 + v;
        let counts = recent + v;
        let parts = Parts {
            reads,
            first: &words[2..recent],
            recent: &words[recent..counts],
            counts: &words[counts..],
        };
        if !parts.agree() {
            return None;
        }
        Some(parts)
    }

    // Whether F holds no extent twice, R holds each of F, and the cold reads with those that H counts are all the reads.
    fn agree(self) -> bool
        ensures { let s = self.entry in result ≡ (distinct s.first.now && all_in s.first.now s.recent.now && eqb (length s.first.now + sum (take max_extents s.counts.now)) s.reads) }
    {
        reuse_tables::all_distinct(self.first)
            && reuse_tables::all_in(self.first, self.recent)
            && self.first.len() as u64 + reuse_rows::total(self.counts) == self.reads as u64
    }
}

// Whether the words are a well-formed summary.
pub fn well_formed(words: &[u32]) -> bool
    ensures { result ≡ well_formed words.now }
{
    Parts::of(words).is_some()
}
