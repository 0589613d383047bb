// One more read put into a log.
ghost use Rattle.std.specs.Prelude.{◌≡◌};
ghost use Rattle.insertion_calls.specs.Calls.{insertion_call};
ghost use Rattle.capi_answers.specs.Answers.{changed, change_left};

// The misses of a cache of this size with a read of the extent put into the log at the place, less those without it, left
// in their place: 0.
#[unsafe(no_mangle)]
pub extern "C" fn jemqolu_one_more(
    log: &[u32],
    place: usize,
    extent: u32,
    size: u32,
    change: &mut i64,
) -> i64
    ensures { (result ≡ changed (insertion_call log.now place extent size)) × (change.new ≡ change_left (insertion_call log.now place extent size) change.old) }
{
    capi_answers::insertion(insertion::one_more(log, place, extent, size), change)
}
