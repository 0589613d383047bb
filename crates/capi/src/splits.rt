// One store split among customers.
ghost use Rattle.std.specs.Prelude.{◌≡◌};
ghost use Rattle.split_calls.specs.Calls.{split_call};
ghost use Rattle.capi_answers.specs.Answers.{counted};

// The misses in all of the customers' summaries, which stand end to end, at the shares found, which stand at the front of `shares`.
#[unsafe(no_mangle)]
pub extern "C" fn jemqolu_split(
    store: u32,
    leasts: &[u32],
    summaries: &[u32],
    shares: &mut [u32],
) -> i64
    ensures { (result ≡ counted (split_call store leasts.now summaries.now shares.old).answer) × (shares.new ≡ (split_call store leasts.now summaries.now shares.old).shares) }
{
    capi_answers::number(split::split(store, leasts, summaries, shares))
}
