// What a session's calls answer: the session with all sums of the tree over its slots, its reads and its summary. The session
// of the library keeps right-hand sums alone, and is shown equal to this one.
#![tactic(auto)]

// The answer to a read that is accepted: cold with the number of different extents read, itself included; or its distance
// with the number of sums read; both with the number of slots looked at.
#[derive(Drop)]
pub enum Answer {
    Cold {
        number: u32,
        slots_looked: u32,
    },
    Distance {
        distance: u32,
        sums_read: u32,
        slots_looked: u32,
    },
}
