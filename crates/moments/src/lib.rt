// Named moments: a session put under a name in lent words, and the session under a name returned to.
#![tactic(auto, unfolding(crate::specs::Names::is_name, crate::specs::Names::place_start, crate::specs::Names::lies, crate::specs::Names::is_set, crate::specs::Names::name_call, crate::specs::Names::return_call))]

ghost use Rattle.std.specs.Prelude.{◌≡◌, true};
ghost use Rattle.moments.specs.Names.{is_name, place_start, is_set, new_names, name_call, not_returned, return_call};

use reuse::Refusal;
use session::Session;
use session_layout::SESSION;

// The words of one place: whether its name is set, then a session's words.
const PLACE: usize = 1 + SESSION;

// The words of all places.
const NAMES: usize = reuse::MAX_NAMES as usize * PLACE;

// The present session after a return, beside the answer.
#[derive(Drop)]
pub struct Returned {
    pub session: Session,
    pub answer: Result<(), Refusal>,
}

// Whether the number is a name.
pub fn is_name(name: u32) -> bool
    ensures { result ≡ is_name name }
{
    (1..=reuse::MAX_NAMES).contains(&name)
}

// Where the place of a name starts.
fn place_start(name: u32) -> usize
    requires { is_name name ≡ true }
    ensures { result ≡ place_start name }
{
    (name - 1) as usize * PLACE
}

// Whether the number is a name that is set in these words.
fn is_set(names: &[u32], name: u32) -> bool
    ensures { result ≡ is_set names.now name }
{
    if !is_name(name) {
        return false;
    }
    let start = place_start(name);
    if names.len() < start + PLACE {
        return false;
    }
    names[start] != 0
}

// Words in which no name is set, at the front of the row.
pub fn new_names(names: &mut [u32]) -> Result<usize, Refusal>
    ensures { (result ≡ (new_names names.old).answer) × (names.new ≡ (new_names names.old).buffer) }
{
    if names.len() < NAMES {
        return Err(Refusal::NoRoom);
    }
    reuse_copies::clear(&mut names[..NAMES]);
    Ok(NAMES)
}

// The session is put under the name.
pub fn name_session(s: Session, names: &mut [u32], name: u32) -> Result<(), Refusal>
    ensures { (result ≡ (name_call s names.old name).answer) × (names.new ≡ (name_call s names.old name).names) }
{
    let named = is_name(name);
    let ok = s.sound();
    if !named {
        return Err(Refusal::OutOfRange);
    }
    let unsound = !ok;
    if unsound {
        return Err(Refusal::Unsound);
    }
    let start = place_start(name);
    let end = start + PLACE;
    if names.len() < end {
        return Err(Refusal::NoRoom);
    }
    names[start] = 1;
    let from = start + 1;
    session_layout::put_session(&mut names[from..end], s);
    Ok(())
}

// The present session stays, beside the refusal.
fn stays(s: Session, refusal: Refusal) -> Returned
    ensures { result ≡ not_returned refusal s }
{
    Returned {
        session: s,
        answer: Err(refusal),
    }
}

// The session under the name becomes the present one.
pub fn return_to(s: Session, names: &[u32], name: u32) -> Returned
    ensures { result ≡ return_call s names.now name }
{
    let known = is_name(name);
    let set = is_set(names, name);
    let none = !known;
    let unset = !set;
    if none {
        return stays(s, Refusal::OutOfRange);
    }
    if unset {
        return stays(s, Refusal::NameNotSet);
    }
    let start = place_start(name);
    let from = start + 1;
    let end = start + PLACE;
    let kept = session_layout::session_in(&names[from..end]);
    let Some(remembered) = kept else {
        return stays(s, Refusal::Unsound);
    };
    let whole = remembered.sound();
    if !whole {
        return stays(s, Refusal::Unsound);
    }
    Returned {
        session: remembered,
        answer: Ok(()),
    }
}
