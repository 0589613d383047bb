// What refuses a read, by a session's fields.
#![tactic(auto)]

ghost use Rattle.std.specs.Prelude.{◌≡◌};
ghost use Rattle.session_refusals.specs.Refusals.{refusal_of};

use reuse::{MAX_EXTENTS, MAX_READS, Refusal};
use session_soundness::Fields;

// Why a read of the extent x is refused; none where it is accepted. For one extent too many x is looked for in F and not
// among the slots: where there are as many extents as the limit, F is all of its row.
pub fn refusal(fields: Fields<'_>, x: u32) -> Option<Refusal>
    ensures { let s = fields.entry in result ≡ refusal_of s.reads s.first.now s.hist.now s.slots.now s.count s.rights.now s.next x }
{
    if !fields.intact() {
        return Some(Refusal::Unsound);
    }
    let at_limit = fields.reads == MAX_READS;
    if at_limit {
        return Some(Refusal::TooManyReads);
    }
    let full = fields.count as usize == MAX_EXTENTS;
    if full && !reuse_rows::contains(fields.first, x) {
        return Some(Refusal::TooManyExtents);
    }
    None
}
