// The smallest cache for a miss allowance.
ghost use Rattle.std.specs.Prelude.{◌≡◌};
ghost use Rattle.allowance_calls.specs.Calls.{smallest_call};
ghost use Rattle.capi_answers.specs.Answers.{sized, words_left};

// The smallest size of a cache that misses no more often than this; how many words of H the search for it read is left in
// their place.
#[unsafe(no_mangle)]
pub extern "C" fn jemqolu_smallest(words: &[u32], misses: u32, read: &mut u32) -> i64
    ensures { (result ≡ sized (smallest_call words.now misses)) × (read.new ≡ words_left (smallest_call words.now misses) read.old) }
{
    capi_answers::size(allowance::smallest(words, misses), read)
}
