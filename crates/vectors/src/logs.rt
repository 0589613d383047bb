// Logs made by a fixed rule.
ghost use Rattle.std.specs.Prelude.{◌<◌};

use reuse::{MAX_EXTENTS, MAX_READS};

// The upper half of a word folded into its lower half.
fn folded(x: u32) -> u32 {
    x ^ (x >> 16)
}

// One round of mixing: a fold, then a product.
fn scramble(x: u32) -> u32 {
    folded(x).wrapping_mul(73244475)
}

// The i-th number of a seed.
fn mixed(seed: u32, i: u32) -> u32 {
    let at = scramble(scramble(seed)).wrapping_add(i);
    folded(scramble(scramble(at)))
}

// The name of extent number k: no two below 4,294,967,295 agree, and the largest name is among the first.
fn name(k: u32) -> u32 {
    match k {
        1 => u32::MAX,
        _ => k.wrapping_mul(2654435761),
    }
}

// The number, below v, of read i's extent in a log of one of four kinds: at random, the small ones more often, round all with others between, or few for a while.
fn pick(seed: u32, i: u32, v: u32) -> u32
    requires { 0 < v }
{
    let a = mixed(seed, i);
    // No enum of the kinds: it would be made of this remainder by the same match, and used here alone.
    match seed % 4 {
        0 => a % v,
        1 => (a % v).min(mixed(seed / 2, i) % v),
        2 => i.wrapping_add(a % 8 / 7 * 5) % v,
        _ => (i / 64 * 7).wrapping_add(a % 8) % v,
    }
}

// The most extents of a log: few, all, or any number of them.
fn variety(seed: u32) -> u32
    ensures { 0 < result }
{
    let a = mixed(seed, 90001);
    // No enum, for the same reason.
    match a % 3 {
        0 => a / 3 % 12 + 1,
        1 => MAX_EXTENTS as u32,
        _ => a / 3 % MAX_EXTENTS as u32 + 1,
    }
}

// The log of a seed.
pub fn fill(log: &mut [u32], seed: u32) {
    let v = variety(seed);
    for (x, i) in log.iter_mut().zip(0..MAX_READS) {
        *x = name(pick(seed, i, v));
    }
}
