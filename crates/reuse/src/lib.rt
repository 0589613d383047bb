// Reuse distances: the definitions, their laws, and the limits.
#![tactic(auto)]

mod refusals;

ghost use Rattle.std.specs.Prelude.{◌≡◌};
ghost use Rattle.reuse.specs.Limits.{max_reads, max_extents, slot_count, right_count, levels, max_store, max_customers, max_names};

pub use refusals::{Refusal, UnknownNumber};

// The most reads of a trace.
pub const MAX_READS: u32 = 1048576;
// The most different extents of a trace.
pub const MAX_EXTENTS: usize = 1024;
// The slots of a session.
pub const SLOTS: usize = 2048;
// The right-hand sums of a session: one for each branching point of the binary tree over its slots.
pub const RIGHTS: usize = 2047;
// The levels of that tree above its leaves.
pub const LEVELS: u32 = 11;
// A cold read is written as this plus its number.
pub const COLD_BASE: u32 = 65536;
// The largest store that is split among customers.
pub const MAX_STORE: usize = 1024;
// The most customers of one store.
pub const MAX_CUSTOMERS: usize = 8;
// The names for moments are the numbers from 1 to this.
pub const MAX_NAMES: u32 = 8;

// The limits that the code works with.
#[derive(Drop)]
pub struct Bounds {
    pub reads: u32,
    pub extents: usize,
    pub slots: usize,
    pub rights: usize,
    pub levels: u32,
    pub store: usize,
    pub customers: usize,
    pub names: u32,
}

// The limits, for callers that size their buffers by them.
pub fn limits() -> Bounds
    ensures { result ≡ record { reads = max_reads; extents = max_extents; slots = slot_count; rights = right_count; levels = levels; store = max_store; customers = max_customers; names = max_names } }
{
    Bounds {
        reads: MAX_READS,
        extents: MAX_EXTENTS,
        slots: SLOTS,
        rights: RIGHTS,
        levels: LEVELS,
        store: MAX_STORE,
        customers: MAX_CUSTOMERS,
        names: MAX_NAMES,
    }
}
