// Words put into a row, or bytes into a row of bytes; rows as long as the limit; rows cleared.
#![tactic(auto)]

ghost use Rattle.std.specs.Prelude.{◌≡◌, reverse, length, replicate};
ghost use Rattle.reuse_rows.specs.Rows.{placed, padded};

use reuse::MAX_EXTENTS;

// A row of as many words as the limit of extents: these words, as many as fit, and 0 after them.
pub fn padded(words: &[u32]) -> [u32; MAX_EXTENTS]
    ensures { result ≡ padded words.now }
{
    let n = words.len().min(MAX_EXTENTS);
    let mut row = [0u32; MAX_EXTENTS];
    row[..n].copy_from_slice(&words[..n]);
    row
}

// The same of the words turned round: the last word first.
pub fn turned(words: &[u32]) -> [u32; MAX_EXTENTS]
    ensures { result ≡ padded (reverse words.now) }
{
    let most = words.len().min(MAX_EXTENTS);
    let mut back = padded(&words[words.len() - most..]);
    back[..most].reverse();
    back
}

// The words, or bytes, are put to `out` from place `at` on; where they do not fit nothing is written.
pub fn put<T: Copy>(out: &mut [T], at: usize, words: &[T])
    ensures { out.new ≡ placed out.old at words.now }
{
    if out.len() < at || out.len() - at < words.len() {
        return;
    }
    // A loop: `copy_from_slice` calls memmove from outside where the rows are not known apart. By index: of
    // `iter_mut().zip(words)` nothing is known of the elements written, so the proof does not close.
    for i in 0..words.len() {
        out[at + i] = words[i];
    }
}

// All words become 0.
pub fn clear(row: &mut [u32])
    ensures { row.new ≡ replicate (length row.old) 0 }
{
    row.fill(0);
}
