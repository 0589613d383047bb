// The right-hand sums of a session: ways from a slot up to the root, and the marks worked out from the root down. The nodes
// of the tree are numbered: the slots first, then the branching points, the lowest level first, the root last. The children
// of point p are the nodes 2p and 2p + 1, so the way up from node n comes to point n / 2.
#![tactic(auto)]

ghost use Rattle.std.specs.Prelude.{◌≡◌, ◌+◌, ◌-◌, ◌++◌, take, drop};
ghost use Rattle.reuse.specs.Limits.{levels};
ghost use Rattle.session_sums.specs.Sums.{first_marks};
ghost use Rattle.session_rights.specs.Rights.{rights_of, children, none_above};
ghost use Rattle.session_points.specs.Points.{walked_up, changed_by, mark_at, worked_out, Level};

use reuse::{LEVELS, RIGHTS, SLOTS};

// What a way up read: the total of the right-hand sums, and how many they are.
#[derive(Drop)]
pub struct Walked {
    pub total: u64,
    pub count: u32,
}

// The total of the right-hand sums wherever the way up from slot s leaves a left child, and how many were read; nothing
// where the row is not as long as a session's right-hand sums, or s is no slot.
pub fn above(rights: &[u32], s: usize) -> Walked
    ensures { result ≡ walked_up rights.now s }
{
    if rights.len() != RIGHTS || SLOTS <= s {
        return Walked { total: 0, count: 0 };
    }
    let mut total: u64 = 0;
    let mut count: u32 = 0;
    let mut node = s;
    for _level in 0..LEVELS {
        let left = node % 2 == 0;
        if left {
            total += rights[node / 2] as u64;
            count += 1;
        }
        node = SLOTS + node / 2;
    }
    Walked { total, count }
}

// Each right-hand sum that the way up from slot s reaches from the right changes by c, modulo 2^32; nothing where s is no
// slot.
pub fn change(rights: &mut [u32; RIGHTS], s: usize, c: u32)
    ensures { rights.new ≡ changed_by c rights.old s }
{
    if SLOTS <= s {
        return;
    }
    let mut node = s;
    for _level in 0..LEVELS {
        let right = node % 2 != 0;
        if right {
            rights[node / 2] = rights[node / 2].wrapping_add(c);
        }
        node = SLOTS + node / 2;
    }
}

// The right-hand sums over v marks in the first slots; over marks in all slots where v is more.
pub fn front(v: usize) -> [u32; RIGHTS]
    ensures { result ≡ rights_of levels (first_marks v) }
{
    let mut out = [0u32; RIGHTS];
    for i in 0..v.min(SLOTS) {
        change(&mut out, i, 1);
    }
    out
}

// What is left of a total, 0 where less is more.
fn remaining(total: u32, less: u64) -> u32
    ensures { result ≡ total - less }
{
    (total as u64).saturating_sub(less) as u32
}

// The mark of slot s, worked out along its way up alone: to the first point that it reaches from the right, or to the root;
// 0 where the row is not as long as a session's right-hand sums, or s is no slot.
pub fn mark_at(count: u32, rights: &[u32], s: usize) -> u32
    ensures { result ≡ mark_at count rights.now s }
{
    if rights.len() != RIGHTS || SLOTS <= s {
        return 0;
    }
    let mut less: u64 = 0;
    let mut node = s;
    for _level in 0..LEVELS {
        let sum = rights[node / 2];
        if node % 2 == 1 {
            return remaining(sum, less);
        }
        less += sum as u64;
        node = SLOTS + node / 2;
    }
    remaining(count, less)
}

// One level down: the first m words become the totals of their 2m children, and the answer is whether no right-hand sum is
// above its point's total.
fn spread(marks: &mut [u32], m: usize, rights: &[u32]) -> bool
    requires { Level marks.old m rights.now }
    ensures { (result ≡ none_above rights.now (take m marks.old)) × (marks.new ≡ children (take m marks.old) rights.now ++ drop (m + m) marks.old) }
{
    let mut good = true;
    for i in (0..m).rev() {
        let total = marks[i];
        let sum = rights[i];
        let over = total < sum;
        if over {
            good = false;
        }
        marks[2 * i + 1] = sum;
        marks[2 * i] = total.saturating_sub(sum);
    }
    good
}

// The marks of all slots, worked out level by level from the root down: the left child has its point's total less the
// right-hand sum, the right child that sum. The answer is whether no right-hand sum is above its point's total. Nothing is
// written where a row has another length than a session's.
pub fn work_out(count: u32, rights: &[u32], marks: &mut [u32]) -> bool
    ensures { (result ≡ (worked_out count rights.now marks.old).within) × (marks.new ≡ (worked_out count rights.now marks.old).marks) }
{
    if rights.len() != RIGHTS || marks.len() != SLOTS {
        return false;
    }
    marks[0] = count;
    let mut within = true;
    for level in 0..LEVELS {
        let m = 1usize << level;
        within &= spread(marks, m, &rights[SLOTS - 2 * m..SLOTS - m]);
    }
    within
}
