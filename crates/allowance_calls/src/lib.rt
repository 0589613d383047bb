// The smallest cache for a miss allowance: the answer's type, the definitions behind the call, and their laws.
#![tactic(auto)]

// The smallest size within the allowance and how many words of H the search read.
#[derive(Drop)]
pub struct SmallestCache {
    pub size: u32,
    pub words_read: u32,
}
