// H of a join: both histograms, and the distances of B's first reads after A's stack.
#![tactic(auto)]

ghost use Rattle.std.specs.Prelude.{◌≡◌, length};
ghost use Rattle.reuse_rows.specs.Rows.{one_more, padded};
ghost use Rattle.summary_cross.specs.Crossing.{added, crossed};

use reuse::MAX_EXTENTS;
use reuse_engine::Place;

// The counts `before` and `after` added, and each distance counted of the reads `first` after the stack `recent`.
pub fn counts(recent: &[u32], first: &[u32], before: &[u32], after: &[u32]) -> [u32; MAX_EXTENTS]
    ensures { result ≡ crossed (padded recent.now) (length recent.now) first.now (added (padded before.now) after.now) }
{
    let mut stack = reuse_copies::padded(recent);
    let mut hist = reuse_copies::padded(before);
    add(&mut hist, after);
    cross(&mut stack, recent.len(), first, &mut hist);
    hist
}

// The words of one row are added to those of another, modulo 2^32.
fn add(row: &mut [u32], more: &[u32])
    ensures { row.new ≡ added row.old more.now }
{
    // By index: of `row.iter_mut().zip(more)` nothing is known of the elements written, so the proof does not close.
    for i in 0..row.len().min(more.len()) {
        row[i] = row[i].wrapping_add(more[i]);
    }
}

// The reads are taken after the stack in the first n words, and each distance is counted, modulo 2^32.
fn cross(stack: &mut [u32], n: usize, reads: &[u32], hist: &mut [u32])
    ensures { hist.new ≡ crossed stack.old n reads.now hist.old }
{
    let mut held = n;
    for &x in reads {
        match reuse_engine::touch(stack, held, x) {
            Place::Cold => held += 1,
            Place::Depth(d) => count(hist, d - 1),
            Place::Full | Place::BadCount => {}
        }
    }
}

// One more at a place of the row, where it has such a place, modulo 2^32.
fn count(row: &mut [u32], at: usize)
    ensures { row.new ≡ one_more at row.old }
{
    if at < row.len() {
        row[at] = row[at].wrapping_add(1);
    }
}
