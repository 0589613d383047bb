// Tables of words: a word is looked up by the place that it falls to.
#![tactic(auto)]

ghost use Rattle.std.specs.Prelude.{◌≡◌, ◌++◌, suc, min, ◌<◌, length, take, drop, replicate};
ghost use Rattle.reuse.specs.Limits.{max_extents};
ghost use Rattle.reuse.specs.Lists.{mem, all_in, beside, distinct, firsts};
ghost use Rattle.reuse_rows.specs.Rows.{padded};
ghost use Rattle.reuse_tables.specs.Tables.{table_places, bucket_of, hints_of, stands_by, looked_up, Held, Counted};

use reuse::MAX_EXTENTS;

// The places of a table: sixteen for each word.
const PLACES: usize = 16 * MAX_EXTENTS;

// What a word is multiplied by, so that the multiples of a power of two spread over the places.
const FACTOR: u64 = 2654435761;

// What the product is divided by: 2^32 over the places.
const STEP: u64 = 4294967296 / PLACES as u64;

// The place that a word falls to.
fn bucket(x: u32) -> usize
    ensures { (result ≡ bucket_of x) × (result < table_places) }
{
    (x as u64 * FACTOR / STEP) as usize % PLACES
}

// For each place of an empty table, which word was the last to fall there, 1 for the first word; 0 where none did.
// Words past the limit of extents are not noted.
fn note(words: &[u32], table: &mut [u16; PLACES])
    requires { table.old ≡ replicate table_places 0 }
    ensures { table.new ≡ hints_of words.now }
{
    let noted = &words[..words.len().min(MAX_EXTENTS)];
    for (i, &x) in noted.iter().enumerate() {
        table[bucket(x)] = (i + 1) as u16;
    }
}

// Whether x stands among the words, by the table in which `note` has noted them.
fn known(words: &[u32], hints: &[u16; PLACES], x: u32) -> bool
    ensures { result ≡ looked_up words.now hints.now x }
{
    stands(words, hints[bucket(x)], x)
}

// Whether x stands among the words: as the word that the hint p gives, or else anywhere; past the limit where p gives none.
fn stands(words: &[u32], p: u16, x: u32) -> bool
    ensures { result ≡ stands_by words.now p x }
{
    if p == 0 {
        return beyond(words, x);
    }
    let i = p as usize - 1;
    if i < words.len() && words[i] == x {
        return true;
    }
    reuse_rows::contains(words, x)
}

// Whether x stands among the words past the limit of extents.
fn beyond(words: &[u32], x: u32) -> bool
    ensures { result ≡ mem x (drop max_extents words.now) }
{
    let within = words.len() <= MAX_EXTENTS;
    if within {
        return false;
    }
    reuse_rows::contains(&words[MAX_EXTENTS..], x)
}

// Whether no word stands twice: only words that fall to one place of a table are compared. Not inlined: beside the table of
// all_in, its own would take a summary's test past the first cache.
#[inline(never)]
pub fn all_distinct(words: &[u32]) -> bool
    ensures { result ≡ distinct words.now }
{
    let mut seen = [0u8; PLACES];
    for (i, &x) in words.iter().enumerate() {
        let h = bucket(x);
        if seen[h] != 0 {
            let twice = reuse_rows::contains(&words[..i], x);
            if twice {
                return false;
            }
        }
        seen[h] = 1;
    }
    true
}

// Whether each of the words stands in `among`.
pub fn all_in(words: &[u32], among: &[u32]) -> bool
    ensures { result ≡ all_in words.now among.now }
{
    let mut table = [0u16; PLACES];
    note(among, &mut table);
    words.iter().all(|&x| known(among, &table, x))
}

// The words, then those of `more` that do not stand among them, as F and R of a join are: as many as the limit of extents,
// and 0 after them.
pub fn beside(words: &[u32], more: &[u32]) -> [u32; MAX_EXTENTS]
    ensures { result ≡ padded (beside words.now more.now) }
{
    let mut table = [0u16; PLACES];
    note(words, &mut table);
    let mut row = reuse_copies::padded(words);
    let mut n = words.len();
    for &x in more {
        if !known(words, &table, x) {
            if MAX_EXTENTS <= n {
                return row;
            }
            row[n] = x;
            n += 1;
        }
    }
    row
}

// How many different extents two traces have, one read after the other, counted to one more than the limit.
pub fn extents_with(before: &[u32], trace: &[u32]) -> usize
    ensures { result ≡ min (length (firsts (before.now ++ trace.now))) (suc max_extents) }
{
    let mut held = [0u32; MAX_EXTENTS];
    let mut table = [0u16; PLACES];
    let n = hold(&mut held, &mut table, 0, before);
    if MAX_EXTENTS < n {
        return n;
    }
    hold(&mut held, &mut table, n, trace)
}

// The words that do not stand among the first n held are held too, each once, and noted in the table.
// How many are held then, or one more than the limit, where there is no room for the next.
fn hold(held: &mut [u32], table: &mut [u16; PLACES], n: usize, words: &[u32]) -> usize
    requires { Held held.old table.old n }
    ensures { Counted (take n held.old) words.now held.new table.new result }
{
    let mut count = n;
    for &x in words {
        if !known(&held[..count], table, x) {
            if count == MAX_EXTENTS {
                return MAX_EXTENTS + 1;
            }
            held[count] = x;
            count += 1;
            table[bucket(x)] = count as u16;
        }
    }
    count
}

// How many different extents a trace has, counted to one more than the limit.
pub fn extents_of(trace: &[u32]) -> usize
    ensures { result ≡ min (length (firsts trace.now)) (suc max_extents) }
{
    extents_with(&[], trace)
}
