// Whether a session's fields are sound.
#![tactic(auto)]

ghost use Rattle.std.specs.Prelude.{◌≡◌, length};
ghost use Rattle.reuse.specs.Lists.{sum};
ghost use Rattle.reuse.specs.Limits.{slot_count};
ghost use Rattle.session_marks.specs.Marks.{tidy};
ghost use Rattle.session_soundness.specs.Soundness.{Wide, marks_hold, sound_rows, intact_rows};

use reuse::{MAX_EXTENTS, MAX_READS, RIGHTS, SLOTS};

// Whether each mark is 0 or 1, and each slot without a mark 0.
fn neat(slots: &[u32], marks: &[u32]) -> bool
    requires { (length slots.now ≡ slot_count) × (length marks.now ≡ slot_count) }
    ensures { result ≡ tidy marks.now slots.now }
{
    let mut good = true;
    for (i, &mark) in marks.iter().enumerate() {
        let bare = (mark == 0) & (slots[i] == 0);
        good &= (mark == 1) | bare;
    }
    good
}

// The part of the test that is of the marks: below next, and tidy.
fn marks_hold(slots: &[u32], marks: &[u32], next: usize) -> bool
    requires { (length slots.now ≡ slot_count) × (length marks.now ≡ slot_count) }
    ensures { result ≡ marks_hold slots.now marks.now next }
{
    next <= SLOTS && neat(slots, marks) && reuse_rows::all_zero(&marks[next..])
}

// A session's fields, each row of any length: L, the count of the marks and the next slot; F and H, the slots, and the
// right-hand sums over their marks.
#[derive(Clone, Copy)]
pub struct Fields<'a> {
    pub reads: u32,
    pub first: &'a [u32],
    pub hist: &'a [u32],
    pub slots: &'a [u32],
    pub count: u32,
    pub rights: &'a [u32],
    pub next: usize,
}

impl Fields<'_> {
    // Whether the rows are as long as a session's and sound: the marks are worked out from the count and the right-hand sums,
    // and all else is tested beside them.
    pub fn intact(self) -> bool
        ensures { let s = self.entry in result ≡ intact_rows s.reads s.first.now s.hist.now s.slots.now s.count s.rights.now s.next }
    {
        if self.first.len() != MAX_EXTENTS || self.hist.len() != MAX_EXTENTS {
            return false;
        }
        if self.slots.len() != SLOTS || self.rights.len() != RIGHTS {
            return false;
        }
        let mut marks = [0u32; SLOTS];
        if !session_points::work_out(self.count, self.rights, &mut marks) {
            return false;
        }
        self.rows_hold(&marks)
    }

    // The test of rows of the right length: the marks, of which there are as many as the count, the other counts, and the
    // same extents in the slots and in F.
    fn rows_hold(self, marks: &[u32]) -> bool
        requires { Wide self.first.now self.hist.now self.slots.now marks.now × (sum marks.now ≡ self.count) }
        ensures { let s = self.entry in result ≡ sound_rows s.reads s.first.now s.hist.now s.slots.now marks.now s.next }
    {
        if MAX_READS < self.reads {
            return false;
        }
        if !marks_hold(self.slots, marks, self.next) {
            return false;
        }
        if self.count > MAX_EXTENTS as u32 {
            return false;
        }
        let v = self.count as usize;
        if !reuse_rows::all_zero(&self.first[v..]) {
            return false;
        }
        if !reuse_rows::all_zero(&self.hist[v..]) {
            return false;
        }
        if reuse_rows::total(&self.hist[..v]) + v as u64 != self.reads as u64 {
            return false;
        }
        if !reuse_tables::all_distinct(&self.first[..v]) {
            return false;
        }
        let marked = session_marks::gather(self.slots, marks);
        reuse_tables::all_in(&self.first[..v], &marked[..v])
    }
}
