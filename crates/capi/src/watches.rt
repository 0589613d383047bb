// A watch kept in lent words.
ghost use Rattle.std.specs.Prelude.{◌≡◌};
ghost use Rattle.capi_answers.specs.Answers.{counted, shared, share_left, done};
ghost use Rattle.watch_words.specs.Calls.{new_watch, note_in, watch_left, misses_in, share_in};

// A new watch's words at the front of the row: how many.
#[unsafe(no_mangle)]
pub extern "C" fn jemqolu_watch_new(size: u32, words: &mut [u32]) -> i64
    ensures { (result ≡ counted (new_watch size words.old).answer) × (words.new ≡ (new_watch size words.old).buffer) }
{
    capi_answers::count(watch_words::new_watch(size, words))
}

// The watch in the words takes one more answer, as the buffer of distances writes it.
#[unsafe(no_mangle)]
pub extern "C" fn jemqolu_watch_read(words: &mut [u32], word: u32) -> i64
    ensures { (result ≡ done (note_in words.old word).outcome) × (words.new ≡ watch_left (note_in words.old word).outcome (note_in words.old word).watch words.old) }
{
    capi_answers::done(watch_words::read(words, word))
}

// The misses of the watch in the words.
#[unsafe(no_mangle)]
pub extern "C" fn jemqolu_watch_misses(words: &[u32]) -> i64
    ensures { result ≡ counted (misses_in words.now) }
{
    capi_answers::number(watch_words::misses(words))
}

// The hit share of the watch in the words, left in its place: 1, or 0 for 'no reads'.
#[unsafe(no_mangle)]
pub extern "C" fn jemqolu_watch_share(words: &[u32], share: &mut f64) -> i64
    ensures { (result ≡ shared (share_in words.now)) × (share.new ≡ share_left (share_in words.now) share.old) }
{
    capi_answers::share(watch_words::share(words), share)
}
