// A session: a trace taken read by read.
#![tactic(auto)]

ghost use Rattle.std.specs.Prelude.{◌≡◌, suc, drop};
ghost use Rattle.reuse.specs.Lists.{sum};
ghost use Rattle.reuse.specs.Lru.{cold, at};
ghost use Rattle.session_calls.specs.Sessions as full;
ghost use Rattle.session_calls.specs.Reads.{step_at};
ghost use Rattle.session.specs.Sessions.{fresh, old_of, sound, Lent};
ghost use Rattle.session.specs.Reads.{new_step, gathered, refused, read_of};
ghost use Rattle.session.specs.Steps.{Gatherable, Movable, Enterable};

use reuse::{MAX_EXTENTS, RIGHTS, Refusal, SLOTS};
use session_calls::Answer;
use session_soundness::Fields;

// One less, modulo 2^32.
const ONE_LESS: u32 = 4294967295;

// L, the count of the marks and the next slot; F and H, the slots, and the right-hand sums over their marks: the arrays that
// the paper names.
#[derive(Clone, Copy)]
pub struct Session {
    pub reads: u32,
    pub count: u32,
    pub next: u32,
    pub first: [u32; MAX_EXTENTS],
    pub hist: [u32; MAX_EXTENTS],
    pub slots: [u32; SLOTS],
    pub rights: [u32; RIGHTS],
}

// The session after a read, beside the answer.
#[derive(Drop)]
pub struct Step {
    pub answer: Result<Answer, Refusal>,
    pub session: Session,
}

impl Session {
    // A new session.
    pub fn new() -> Self
        ensures { result ≡ fresh }
    {
        Session {
            reads: 0,
            first: [0; 1024],
            hist: [0; 1024],
            slots: [0; 2048],
            count: 0,
            rights: [0; 2047],
            next: 0,
        }
    }

    // Its fields, borrowed.
    fn fields(&self) -> Fields<'_>
        ensures { Lent self.now result }
    {
        Fields {
            reads: self.reads,
            first: &self.first,
            hist: &self.hist,
            slots: &self.slots,
            count: self.count,
            rights: &self.rights,
            next: self.next as usize,
        }
    }

    // Whether the session is sound.
    pub fn sound(self) -> bool
        ensures { result ≡ sound self }
    {
        self.fields().intact()
    }

    // The marks moved, in order, to the first slots. Neither this nor a read below is inlined, so that the rows that they work
    // on are not on the stack of the whole read.
    #[inline(never)]
    fn gathered(mut self) -> Self
        requires { Gatherable self }
        ensures { result ≡ gathered self }
    {
        let v = self.count;
        let mut marks = [0u32; SLOTS];
        session_points::work_out(v, &self.rights, &mut marks);
        let slots = session_marks::gather(&self.slots, &marks);
        let rights = session_points::front(v as usize);
        self.slots = slots;
        self.rights = rights;
        self.next = v;
        self
    }

    // A read of the extent x, whose mark is in slot k, after so many slots looked at.
    #[inline(never)]
    fn moved(self, x: u32, k: usize, looked: u32) -> Step
        requires { Movable self x k looked }
        ensures { result ≡ new_step (step_at (old_of self) x (at (suc (sum (drop (suc k) (full.marks (old_of self))))))) }
    {
        let next = self.next as usize;
        let mut rights = self.rights;
        let w = session_points::above(&rights, k);
        session_points::change(&mut rights, k, ONE_LESS);
        session_points::change(&mut rights, next, 1);
        let mut slots = self.slots;
        slots[k] = 0;
        slots[next] = x;
        let t = w.total as usize;
        let mut hist = self.hist;
        hist[t] = hist[t] + 1;
        let first = self.first;
        Step {
            session: Session {
                reads: self.reads + 1,
                first,
                hist,
                slots,
                count: self.count,
                rights,
                next: self.next + 1,
            },
            answer: Ok(Answer::Distance {
                distance: t as u32 + 1,
                sums_read: w.count,
                slots_looked: looked,
            }),
        }
    }

    // A first read of the extent x, after so many slots looked at.
    #[inline(never)]
    fn entered(self, x: u32, looked: u32) -> Step
        requires { Enterable self looked }
        ensures { result ≡ new_step (step_at (old_of self) x (cold (suc (full.extents (old_of self))))) }
    {
        let next = self.next as usize;
        let v = self.count;
        let mut rights = self.rights;
        session_points::change(&mut rights, next, 1);
        let mut slots = self.slots;
        slots[next] = x;
        let mut first = self.first;
        first[v as usize] = x;
        let hist = self.hist;
        Step {
            session: Session {
                reads: self.reads + 1,
                first,
                hist,
                slots,
                count: v + 1,
                rights,
                next: self.next + 1,
            },
            answer: Ok(Answer::Cold {
                number: v + 1,
                slots_looked: looked,
            }),
        }
    }

    // The session unchanged, beside the refusal.
    #[inline(never)]
    fn refused(self, refusal: Refusal) -> Step
        ensures { result ≡ refused self refusal }
    {
        Step {
            session: self,
            answer: Err(refusal),
        }
    }

    // A read of the extent: its number where it is cold, or its reuse distance and the sums read, and the slots looked at; or
    // the refusal; and the session after it.
    pub fn read(mut self, extent: u32) -> Step
        ensures { result ≡ read_of self extent }
    {
        let next = self.next as usize;
        let refusal = session_refusals::refusal(self.fields(), extent);
        if let Some(why) = refusal {
            return self.refused(why);
        }
        let filled = next == SLOTS;
        if filled {
            self = self.gathered();
        }
        let below = self.next as usize;
        let marked = self.count;
        let found = session_marks::find(&self.slots, marked, &self.rights, below, extent);
        let Some(slot) = found.slot else {
            return self.entered(extent, found.looked);
        };
        self.moved(extent, slot, found.looked)
    }
}
