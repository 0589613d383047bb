// What each call on summaries answers: the type of a hit share, the definitions behind the calls, and their laws.
#![tactic(auto)]

// The hits of a cache by the reads that some size could have served, or that there were no such reads.
#[derive(Drop)]
pub enum HitShare {
    Share(f64),
    NoReads,
}
