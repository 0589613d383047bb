// The search: the table from the last customer back, the smallest room that reaches its fewest misses, and the shares from the
// first customer on.
ghost use Rattle.std.specs.Prelude.{◌≡◌};
ghost use Rattle.split_calls.specs.Cuts.{own_words};
ghost use Rattle.split.specs.Search.{Cuttable, Laying, TableLaid, Scanning, Scanned, Seeking, Sought, Choosing, Chosen, SplitReady, SplitFound};

use reuse::{MAX_CUSTOMERS, MAX_EXTENTS};
use split_rows::{ROOMS, Rooms, SIZES};

// A row of misses for each customer.
const COSTS: usize = MAX_CUSTOMERS * SIZES;
// A row of the table for the customers from each one on, and one for none.
const TABLE: usize = (MAX_CUSTOMERS + 1) * ROOMS;

// How many of the words are the first customer's: 2 + 3v by its own v, all of them where it is the last.
fn own_words(words: &[u32], customers: usize) -> usize
    requires { Cuttable words.now customers }
    ensures { result ≡ own_words customers words.now }
{
    if customers == 1 {
        return words.len();
    }
    let v = words[1] as usize;
    2 + 3 * v
}

// The table of these customers, laid into a blank one from the last of them back: their least shares in all.
fn lay(words: &[u32], leasts: &[u32], store: usize, costs: &mut [u32], table: &mut [u32]) -> usize
    requires { Laying words.now leasts.now store costs.old table.old }
    ensures { TableLaid words.now leasts.now store result costs.new table.new }
{
    if leasts.len() == 0 {
        return 0;
    }
    let own = own_words(words, leasts.len());
    let others = lay(
        &words[own..],
        &leasts[1..],
        store,
        &mut costs[SIZES..],
        &mut table[ROOMS..],
    );
    let least = leasts[0] as usize;
    let low = least + others;
    let rooms = Rooms { least, low, store };
    split_rows::enter(&words[..own], rooms, costs, table);
    low
}

// The first room from `low` on with as few misses as the store.
fn smallest(row: &[u32], low: usize, store: usize) -> usize
    requires { Scanning row.now low store }
    ensures { Scanned row.now low store result }
{
    let fewest = row[store];
    let before = row[low..store].iter().position(|&x| x == fewest);
    low + before.unwrap_or(store - low)
}

// The first share from the least on that, with the others' misses in what is left, reaches these misses.
fn share_at(costs: &[u32], others: &[u32], misses: u32, least: usize, left: usize) -> usize
    requires { Seeking costs.now others.now misses least left }
    ensures { Sought costs.now others.now misses least left result }
{
    // By hand: a sum fits its word only up to the share found, and `find` asks that of its closure beforehand.
    for share in least..left {
        let size = share.min(MAX_EXTENTS);
        if costs[size] + others[left - share] == misses {
            return share;
        }
    }
    left
}

// The customers' shares of the room `left`, from the first on, at the front of `shares`.
fn choose(leasts: &[u32], left: usize, costs: &[u32], table: &[u32], shares: &mut [u32])
    requires { Choosing leasts.now left costs.now table.now shares.old }
    ensures { Chosen leasts.now left costs.now table.now shares.old shares.new }
{
    if leasts.len() == 0 {
        return;
    }
    let least = leasts[0] as usize;
    let share = share_at(costs, &table[ROOMS..], table[left], least, left);
    shares[0] = share as u32;
    choose(
        &leasts[1..],
        left - share,
        &costs[SIZES..],
        &table[ROOMS..],
        &mut shares[1..],
    );
}

// The misses in all of the best shares, which are put at the front of `shares`.
pub fn search(store: usize, leasts: &[u32], words: &[u32], shares: &mut [u32]) -> u32
    requires { SplitReady store leasts.now words.now shares.old }
    ensures { SplitFound store leasts.now words.now shares.old result shares.new }
{
    let mut costs = [0u32; COSTS];
    let mut table = [0u32; TABLE];
    let low = lay(words, leasts, store, &mut costs, &mut table);
    let total = smallest(&table, low, store);
    choose(leasts, total, &costs, &table, shares);
    table[store]
}
