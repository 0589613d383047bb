// Passes over the reads of a trace with one stack, and what they tell of the trace with a read put in.
ghost use Rattle.std.specs.Prelude.{◌≡◌, cond, ◌||◌, ◌+◌, ◌≤◌, pos, length, is_some};
ghost use Rattle.std.specs.Option.{unwrap_or};
ghost use Rattle.reuse.specs.Limits.{max_extents};
ghost use Rattle.reuse.specs.Lists.{mem, before};
ghost use Rattle.insertion_calls.specs.Trails.{miss_at, change_by};
ghost use Rattle.insertion.specs.Passes.{Ready, Held, Ahead, Small, Followed, with_newcomer, with_known};

use reuse_engine::Place;

// What tells the two traces apart after reads of other extents than the one put in: how many of these were read since the
// place, at what depth the extent stands without the read put in, or would stand, and how many reads miss with it only.
#[derive(Drop)]
pub struct Marks {
    pub since: usize,
    pub depth: usize,
    pub spoiled: u32,
}

// The extents held after a pass, how many reads it took, and the marks then.
#[derive(Drop)]
pub struct Traced {
    pub held: usize,
    pub taken: usize,
    pub marks: Marks,
}

// How many words stand before the first one of the extent, where there is one.
pub fn ahead(row: &[u32], extent: u32) -> Option<usize>
    ensures known { is_some result ≡ mem extent row.now }
    ensures above { unwrap_or result (length row.now) ≡ length (before extent row.now) }
{
    row.iter().position(|&x| x == extent)
}

// The reads are taken after the stack in the first n words: how many extents are held then; none where they pass the limit.
pub fn hold(stack: &mut [u32], n: usize, reads: &[u32]) -> Option<usize>
    requires { Ready stack.old n reads.now }
    ensures { Held stack.old n reads.now stack.new result }
{
    let mut held = n;
    for &x in reads {
        let place = reuse_engine::touch(stack, held, x);
        match place {
            Place::Cold => {
                held += 1;
            }
            Place::Depth(_) => {}
            Place::Full => {
                return None;
            }
            Place::BadCount => {
                return Some(held);
            }
        }
    }
    Some(held)
}

// The reads up to the next one of the extent are taken so, from the place on, and marked. The stack and its count stay apart,
// as `touch` promises on any slice and any count. None where the extents pass the limit.
pub fn follow(
    stack: &mut [u32],
    n: usize,
    reads: &[u32],
    extent: u32,
    size: u32,
    ahead: usize,
) -> Option<Traced>
    requires { Ahead stack.old n reads.now extent ahead }
    ensures { Followed stack.old n reads.now extent size stack.new result }
{
    let mut held = n;
    let mut marks = at_place(ahead);
    for (taken, &x) in reads.iter().enumerate() {
        if x == extent {
            return Some(Traced { held, taken, marks });
        }
        let place = reuse_engine::touch(stack, held, x);
        match place {
            Place::Cold => {
                held += 1;
                marks = with_newcomer(marks);
            }
            Place::Depth(d) => {
                marks = with_known(marks, d, size as usize);
            }
            Place::Full => {
                return None;
            }
            Place::BadCount => {
                return Some(Traced { held, taken, marks });
            }
        }
    }
    Some(Traced {
        held,
        taken: reads.len(),
        marks,
    })
}

// The marks at the place, where so many extents stand above the one put in.
fn at_place(ahead: usize) -> Marks
    requires { ahead ≤ max_extents }
    ensures { result ≡ record { since = 0; depth = ahead + 1; spoiled = 0 } }
{
    Marks {
        since: 0,
        depth: ahead + 1,
        spoiled: 0,
    }
}

// The marks after a read of an extent that was not read before: it misses both times.
fn with_newcomer(m: Marks) -> Marks
    requires { Small m }
    ensures { result ≡ with_newcomer m }
{
    Marks {
        since: m.since + 1,
        depth: m.depth + 1,
        spoiled: m.spoiled,
    }
}

// The marks after a read at a depth: one of an extent that was not read since the place is one deeper with the read put in,
// but where it stands below the extent put in.
fn with_known(m: Marks, d: usize, size: usize) -> Marks
    requires { Small m }
    ensures { result ≡ with_known m d size }
{
    if d <= m.since {
        return m;
    }
    if m.depth < d {
        return with_newcomer(m);
    }
    let mut spoiled = m.spoiled;
    if d == size {
        spoiled += 1;
    }
    Marks {
        since: m.since + 1,
        depth: m.depth,
        spoiled,
    }
}

// A miss of a read of an extent at a depth, or of one that was not read before: 1, else 0.
fn missed(known: bool, depth: usize, size: usize) -> i64
    ensures { result ≡ pos (miss_at known depth size) }
{
    let hit = known && depth <= size;
    i64::from(!hit)
}

// The change: a miss of the read put in, whose extent stood at the depth `own` if it was known, and the reads spoiled; where
// the extent is read again, the misses of that read with the read put in, where it stands below the extents read since, less
// those without it.
pub fn change(known: bool, again: bool, own: usize, marks: Marks, size: usize) -> i64
    requires { marks.since ≤ max_extents }
    ensures { result ≡ change_by known again own marks.since marks.depth marks.spoiled size }
{
    let with = missed(known, own, size) + i64::from(marks.spoiled);
    if !again {
        return with;
    }
    with + missed(true, marks.since + 1, size) - missed(known, marks.depth, size)
}

// The extents of the trace with the read put in, of those of the trace without it: one more where its extent is new.
pub fn extents_with(held: usize, known: bool, again: bool) -> usize
    requires { held ≤ max_extents }
    ensures { result ≡ cond (known || again) 0 1 + held }
{
    if known || again {
        return held;
    }
    held + 1
}
