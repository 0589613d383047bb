// A session kept in lent words.
#![tactic(auto)]

ghost use Rattle.std.specs.Prelude.{◌≡◌};
ghost use Rattle.session_words.specs.Calls.{new_session, read_in, session_left, summary_in, misses_in, share_in};

use reuse::Refusal;
use session::Session;
use session_calls::Answer;
use session_layout::SESSION;
use summary_calls::HitShare;

// A new session's words at the front of the row.
pub fn new_session(words: &mut [u32]) -> Result<usize, Refusal>
    ensures { (result ≡ (new_session words.old).answer) × (words.new ≡ (new_session words.old).buffer) }
{
    if words.len() < SESSION {
        return Err(Refusal::NoRoom);
    }
    session_layout::put_session(words, Session::new());
    Ok(SESSION)
}

// A read of the extent by the session in the words.
pub fn read(words: &mut [u32], extent: u32) -> Result<Answer, Refusal>
    ensures { (result ≡ (read_in words.old extent).answer) × (words.new ≡ session_left (read_in words.old extent).answer (read_in words.old extent).session words.old) }
{
    // Not by `?`: of a session each way of handing it on is a copy of 24 KB on the stack.
    let step = match session_layout::session_in(words) {
        Some(session) => session.read(extent),
        None => return Err(Refusal::Unsound),
    };
    if step.answer.is_ok() {
        session_layout::put_session(words, step.session);
    }
    step.answer
}

// The summary of the session in the words, at the front of `out`.
pub fn summary(words: &[u32], out: &mut [u32]) -> Result<usize, Refusal>
    ensures { (result ≡ (summary_in words.now out.old).answer) × (out.new ≡ (summary_in words.now out.old).buffer) }
{
    // Not by `?`, as in a read.
    match session_layout::session_in(words) {
        Some(session) => session_summary::summary(session, out),
        None => Err(Refusal::Unsound), // too few words for a summary
    }
}

// The misses of a cache of this size that reads the log of the session in the words.
pub fn misses(words: &[u32], size: u32) -> Result<u32, Refusal>
    ensures { result ≡ misses_in words.now size }
{
    // Not by `?`, as in a read.
    match session_layout::session_in(words) {
        Some(session) => session_summary::misses(session, size),
        None => Err(Refusal::Unsound), // too few words for misses
    }
}

// The hit share of a cache of this size that reads the log of the session in the words.
pub fn share(words: &[u32], size: u32) -> Result<HitShare, Refusal>
    ensures { result ≡ share_in words.now size }
{
    // Not by `?`, as in a read.
    match session_layout::session_in(words) {
        Some(session) => session_summary::share(session, size),
        None => Err(Refusal::Unsound), // too few words for a share
    }
}
