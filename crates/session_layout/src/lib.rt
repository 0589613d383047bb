// The layout of a session in words: a session taken from a row of words, and one put into it.
#![tactic(auto)]

ghost use Rattle.std.specs.Prelude.{◌≡◌};
ghost use Rattle.reuse_rows.specs.Rows.{placed};
ghost use Rattle.session_layout.specs.Layout.{kept_in, session_laid};

use session::Session;

// Where F, H, the slots, the count, the right-hand sums and the next slot stand in a session's words, after its reads.
const FIRST: usize = 1;

const HIST: usize = FIRST + reuse::MAX_EXTENTS;

const SLOTS: usize = HIST + reuse::MAX_EXTENTS;

const COUNT: usize = SLOTS + reuse::SLOTS;

const RIGHTS: usize = COUNT + 1;

const NEXT: usize = RIGHTS + reuse::RIGHTS;

// The words of a session.
pub const SESSION: usize = NEXT + 1;

// The session that stands in the first words, where they are enough.
pub fn session_in(words: &[u32]) -> Option<Session>
    ensures { result ≡ kept_in words.now }
{
    if words.len() < SESSION {
        return None;
    }
    let first = reuse_copies::padded(&words[FIRST..HIST]);
    let hist = reuse_copies::padded(&words[HIST..SLOTS]);
    let mut slots = [0u32; reuse::SLOTS];
    let mut rights = [0u32; reuse::RIGHTS];
    reuse_copies::put(&mut slots, 0, &words[SLOTS..COUNT]);
    reuse_copies::put(&mut rights, 0, &words[RIGHTS..NEXT]);
    let reads = words[0];
    let count = words[COUNT];
    let next = words[NEXT];
    Some(Session {
        reads,
        first,
        hist,
        slots,
        count,
        rights,
        next,
    })
}

// The session's words are put to the front of the row; where it has fewer words nothing is written.
pub fn put_session(words: &mut [u32], s: Session)
    ensures { words.new ≡ placed words.old 0 (session_laid s) }
{
    if words.len() < SESSION {
        return;
    }
    words[0] = s.reads;
    reuse_copies::put(words, FIRST, &s.first);
    reuse_copies::put(words, HIST, &s.hist);
    reuse_copies::put(words, SLOTS, &s.slots);
    words[COUNT] = s.count;
    reuse_copies::put(words, RIGHTS, &s.rights);
    words[NEXT] = s.next;
}
