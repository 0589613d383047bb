// A session kept in lent words.
ghost use Rattle.std.specs.Prelude.{◌≡◌};
ghost use Rattle.capi_answers.specs.Answers.{counted, shared, share_left, told, sums_left, slots_left};
ghost use Rattle.session_words.specs.Calls.{new_session, read_in, session_left, summary_in, misses_in, share_in};

// A new session's words at the front of the row: how many.
#[unsafe(no_mangle)]
pub extern "C" fn jemqolu_session_new(session: &mut [u32]) -> i64
    ensures { (result ≡ counted (new_session session.old).answer) × (session.new ≡ (new_session session.old).buffer) }
{
    capi_answers::count(session_words::new_session(session))
}

// A read of the extent by the session in the words: its answer as the buffer of distances writes it, how many sums it read,
// and how many slots it looked at.
#[unsafe(no_mangle)]
pub extern "C" fn jemqolu_session_read(
    session: &mut [u32],
    extent: u32,
    sums: &mut u32,
    slots: &mut u32,
) -> i64
    ensures is { result ≡ told (read_in session.old extent).answer }
    ensures session { session.new ≡ session_left (read_in session.old extent).answer (read_in session.old extent).session session.old }
    ensures sums { sums.new ≡ sums_left (read_in session.old extent).answer sums.old }
    ensures slots { slots.new ≡ slots_left (read_in session.old extent).answer slots.old }
{
    capi_answers::read(session_words::read(session, extent), sums, slots)
}

// The summary of the session in the words, at the front of `out`: how many words.
#[unsafe(no_mangle)]
pub extern "C" fn jemqolu_session_summary(session: &[u32], out: &mut [u32]) -> i64
    ensures { (result ≡ counted (summary_in session.now out.old).answer) × (out.new ≡ (summary_in session.now out.old).buffer) }
{
    capi_answers::count(session_words::summary(session, out))
}

// The misses of a cache of this size that reads the log of the session in the words.
#[unsafe(no_mangle)]
pub extern "C" fn jemqolu_session_misses(session: &[u32], size: u32) -> i64
    ensures { result ≡ counted (misses_in session.now size) }
{
    capi_answers::number(session_words::misses(session, size))
}

// The hit share of such a cache, left in its place: 1, or 0 for 'no reads'.
#[unsafe(no_mangle)]
pub extern "C" fn jemqolu_session_share(session: &[u32], size: u32, share: &mut f64) -> i64
    ensures { (result ≡ shared (share_in session.now size)) × (share.new ≡ share_left (share_in session.now size) share.old) }
{
    capi_answers::share(session_words::share(session, size), share)
}
