// The pass over a part's reads that writes their distances.
ghost use Rattle.std.specs.Prelude.{◌≡◌, ◌++◌, map, length, take, drop};
ghost use Rattle.reuse.specs.Lru.{reuses};
ghost use Rattle.reuse.specs.Written.{word_of};
ghost use Rattle.after.specs.Passes.{Traceable};

use reuse_engine::Place;

// The answers to the reads after the stack in the first n words, one word each.
pub fn trace(stack: &mut [u32], n: usize, reads: &[u32], out: &mut [u32])
    requires { Traceable stack.old n reads.now out.old }
    ensures { out.new ≡ map word_of (reuses (take n stack.old) reads.now) ++ drop (length reads.now) out.old }
{
    let mut held = n;
    for (i, &x) in reads.iter().enumerate() {
        let place = reuse_engine::touch(stack, held, x);
        match place {
            Place::Cold => {
                held += 1;
                out[i] = reuse::COLD_BASE + held as u32;
            }
            Place::Depth(d) => {
                out[i] = d as u32;
            }
            Place::Full => {
                return;
            }
            Place::BadCount => {
                return;
            }
        }
    }
}
