// The slots beside their marks: the slot of an extent, and the marked extents gathered.
#![tactic(auto)]

ghost use Rattle.std.specs.Prelude.{◌≡◌};
ghost use Rattle.session_marks.specs.Marks.{paired, found_in, gathered_row};

use reuse::{RIGHTS, SLOTS};

// What a search came to: the slot, where there is one, and how many slots were looked at.
#[derive(Drop)]
pub struct Found {
    pub slot: Option<usize>,
    pub looked: u32,
}

// The slot below next that holds x and is marked, where there is one, and how many slots were looked at: the newest first,
// down to that one. An unmarked slot of a sound session holds 0, so only for 0 a mark is worked out. In rows of another
// length none is looked at.
pub fn find(slots: &[u32], count: u32, rights: &[u32], next: usize, x: u32) -> Found
    ensures { result ≡ found_in slots.now count rights.now next x }
{
    if slots.len() != SLOTS || rights.len() != RIGHTS || SLOTS < next {
        return Found {
            slot: None,
            looked: 0,
        };
    }
    let mut looked: u32 = 0;
    for i in (0..next).rev() {
        looked += 1;
        if slots[i] == x {
            let other = x != 0;
            if other {
                return Found {
                    slot: Some(i),
                    looked,
                };
            }
            let marked = session_points::mark_at(count, rights, i) == 1;
            if marked {
                return Found {
                    slot: Some(i),
                    looked,
                };
            }
        }
    }
    Found { slot: None, looked }
}

// Whether the rows are as long as a session's slots.
fn paired(slots: &[u32], marks: &[u32]) -> bool
    ensures { result ≡ paired slots.now marks.now }
{
    slots.len() == SLOTS && marks.len() == SLOTS
}

// The extents of the marked slots, in order, from slot 0; none in rows of another length.
pub fn gather(slots: &[u32], marks: &[u32]) -> [u32; SLOTS]
    ensures { result ≡ gathered_row slots.now marks.now }
{
    let mut out = [0u32; SLOTS];
    if !paired(slots, marks) {
        return out;
    }
    let mut n: usize = 0;
    for (i, &mark) in marks.iter().enumerate() {
        if mark == 1 {
            out[n] = slots[i];
            n += 1;
        }
    }
    out
}
