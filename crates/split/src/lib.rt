// One store split among customers: the shares with the fewest misses in all, of these the smallest total, then the smallest
// first share, the second, and so on.
#![tactic(auto)]

mod search;

ghost use Rattle.std.specs.Prelude.{◌≡◌};
ghost use Rattle.split_calls.specs.Calls.{split_call};

use reuse::{MAX_CUSTOMERS, MAX_STORE, Refusal};

// The misses in all of the customers' summaries at the shares found, which stand at the front of `shares`.
pub fn split(
    store: u32,
    leasts: &[u32],
    summaries: &[u32],
    shares: &mut [u32],
) -> Result<u32, Refusal>
    ensures { (result ≡ (split_call store leasts.now summaries.now shares.old).answer) × (shares.new ≡ (split_call store leasts.now summaries.now shares.old).shares) }
{
    let room = store as usize;
    let customers = leasts.len();
    if MAX_STORE < room {
        return Err(Refusal::OutOfRange);
    }
    if customers < 1 {
        return Err(Refusal::OutOfRange);
    }
    if MAX_CUSTOMERS < customers {
        return Err(Refusal::OutOfRange);
    }
    if !split_formed::all_formed(summaries, customers) {
        return Err(Refusal::NotASummary);
    }
    let short = (store as u64) < reuse_rows::total(leasts);
    if short {
        return Err(Refusal::StoreTooSmall);
    }
    if shares.len() < customers {
        return Err(Refusal::NoRoom);
    }
    Ok(search::search(room, leasts, summaries, shares))
}
