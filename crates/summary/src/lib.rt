// Summaries as words in lent slices: the summary of a trace, the well-formedness test, join, misses and hit share.
#![tactic(auto)]

pub use reuse::Refusal;
pub use summary_calls::HitShare;
pub use summary_counts::{misses, share, share_of};
pub use summary_formed::well_formed;
pub use summary_join::join;
pub use summary_trace::of_trace;
pub use summary_words::write;
