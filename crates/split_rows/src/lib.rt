// The rows of a split's table: a customer's misses at each size, and the least misses in each room with one customer more.
#![tactic(auto)]

ghost use Rattle.std.specs.Prelude.{◌≡◌, length};
ghost use Rattle.split_calls.specs.Tables.{lowest};
ghost use Rattle.split_rows.specs.Rows.{misses_row, enterable, entered_rows};
ghost use Rattle.split_rows.specs.Steps.{Whole, pair_sum, Tries, Fillable, filled_row};

use reuse::{MAX_EXTENTS, MAX_STORE};

// The sizes from 0 to the most extents.
pub const SIZES: usize = MAX_EXTENTS + 1;
// The rooms from 0 to the largest store.
pub const ROOMS: usize = MAX_STORE + 1;

// The rooms of a customer before the others: its least share, the least shares of it and them in all (`low`), and the store.
#[derive(Clone, Copy)]
pub struct Rooms {
    pub least: usize,
    pub low: usize,
    pub store: usize,
}

// The misses of a summary's words at each size: running sums of H from its end.
fn misses_row(words: &[u32]) -> [u32; SIZES]
    requires { Whole words.now }
    ensures { result ≡ misses_row words.now }
{
    let v = words[1] as usize;
    let counts = 2 + 2 * v;
    let mut row = [words[1]; SIZES];
    // By index, from the end: an entry is made of the one after it and a word at the same place of H.
    for s in (0..v).rev() {
        row[s] = row[s + 1].wrapping_add(words[counts + s]);
    }
    row
}

// The least of own[i] + others[left - i] for i up to `tries`. No early exit: the loop is vectorized.
fn least_sum(own: &[u32], others: &[u32], left: usize, tries: usize) -> u32
    requires { Tries own.now others.now left tries }
    ensures { result ≡ lowest (pair_sum own.now others.now left) 0 tries }
{
    let mut least = own[0].wrapping_add(others[left]);
    // By index: by `zip` and `rev` of two slices it is vectorized too, but the proof of that form did not close.
    for i in 1..=tries {
        least = least.min(own[i].wrapping_add(others[left - i]));
    }
    least
}

// The table's first row from its second, in the rooms from `low` to the store: own[i] are the misses of the customer before the
// others with i extents past its least share, and no more than `span` of them save any.
fn fill(own: &[u32], span: usize, rooms: Rooms, table: &mut [u32])
    requires { Fillable own.now span rooms.least rooms.low rooms.store table.old }
    ensures { table.new ≡ filled_row own.now span rooms.least rooms.low rooms.store table.old }
{
    for t in rooms.low..=rooms.store {
        let tries = (t - rooms.low).min(span);
        table[t] = least_sum(own, &table[ROOMS..], t - rooms.least, tries);
    }
}

// Whether the words are as long as their v says, within the limit, and the numbers and the rows fit one another.
fn fits(words: &[u32], rooms: Rooms, costs: usize, table: usize) -> bool
    ensures { result ≡ enterable words.now rooms.least rooms.low rooms.store costs table }
{
    if words.len() < 2 {
        return false;
    }
    let v = words[1] as usize;
    v <= MAX_EXTENTS
        && 2 + 3 * v <= words.len()
        && rooms.least <= rooms.low
        && rooms.low <= rooms.store
        && rooms.store <= MAX_STORE
        && SIZES <= costs
        && ROOMS + ROOMS <= table
}

// One customer more before the others: its misses at the front of `costs`, and the row of it and them at the front of the table.
pub fn enter(words: &[u32], rooms: Rooms, costs: &mut [u32], table: &mut [u32])
    ensures costs { costs.new ≡ (entered_rows words.now rooms.least rooms.low rooms.store costs.old table.old).costs }
    ensures table { table.new ≡ (entered_rows words.now rooms.least rooms.low rooms.store costs.old table.old).table }
{
    if !fits(words, rooms, costs.len(), table.len()) {
        return;
    }
    let own = misses_row(words);
    reuse_copies::put(costs, 0, &own);
    let v = words[1] as usize;
    let base = rooms.least.min(v);
    fill(&own[base..], v - base, rooms, table);
}
