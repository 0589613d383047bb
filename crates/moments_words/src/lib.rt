// Named moments of a session kept in lent words.
#![tactic(auto, unfolding(crate::specs::Calls::name_in, session_layout::specs::Layout::kept_in))]

ghost use Rattle.std.specs.Prelude.{◌≡◌};
ghost use Rattle.moments_words.specs.Calls.{name_in, return_in};

use reuse::Refusal;
use session::Session;
use session_layout::SESSION;

// The session in the words is put under the name. Not inlined: in the call for C, LLVM would lose a register (docs/DECISIONS.md).
#[inline(never)]
pub fn name_session(words: &[u32], names: &mut [u32], name: u32) -> Result<(), Refusal>
    ensures { (result ≡ (name_in words.now names.old name).answer) × (names.new ≡ (name_in words.now names.old name).names) }
{
    if !moments::is_name(name) {
        return Err(Refusal::OutOfRange);
    }
    let Some(s) = session_layout::session_in(words) else {
        return Err(Refusal::Unsound);
    };
    moments::name_session(s, names, name)
}

// The session under the name comes to the front of the words.
pub fn return_to(words: &mut [u32], names: &[u32], name: u32) -> Result<(), Refusal>
    ensures { (result ≡ (return_in words.old names.now name).answer) × (words.new ≡ (return_in words.old names.now name).words) }
{
    let back = moments::return_to(Session::new(), names, name);
    back.answer?;
    if words.len() < SESSION {
        return Err(Refusal::NoRoom);
    }
    session_layout::put_session(words, back.session);
    Ok(())
}
