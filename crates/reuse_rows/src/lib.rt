// Rows of words: what stands in one, whether it is all 0, and what it adds up to.
#![tactic(auto)]

ghost use Rattle.std.specs.Prelude.{◌≡◌, ◌*◌, ◌≤◌, ◌^◌, length, take};
ghost use Rattle.reuse.specs.Limits.{max_extents};
ghost use Rattle.reuse.specs.Lists.{mem, sum};
ghost use Rattle.reuse_rows.specs.Rows.{blank};

use reuse::MAX_EXTENTS;

// Whether x stands in the slice. No early exit: the loop is vectorized.
pub fn contains(s: &[u32], x: u32) -> bool
    ensures { result ≡ mem x s.now }
{
    let mut found = false;
    for &y in s {
        if y == x {
            found = true;
        }
    }
    found
}

// Whether all words are 0. No early exit: the loop is vectorized.
pub fn all_zero(row: &[u32]) -> bool
    ensures { result ≡ blank row.now }
{
    let mut clear = true;
    for &x in row {
        let other = x != 0;
        if other {
            clear = false;
        }
    }
    clear
}

// The sum of the words, as many as the limit of extents.
pub fn total(row: &[u32]) -> u64
    ensures { (result ≡ sum (take max_extents row.now)) × (result ≤ max_extents * 2 ^ 32) }
{
    let most = row.len().min(MAX_EXTENTS);
    let mut t: u64 = 0;
    for &x in &row[..most] {
        t += x as u64;
    }
    t
}
