// The engine of all batch work: an LRU stack in a lent slice.
#![tactic(auto)]

ghost use Rattle.std.specs.Prelude.{◌≡◌, [], ◌∷◌, ◌++◌, ◌≤◌, length, drop};
ghost use Rattle.reuse_engine.specs.Engine.{place_of, left_by, Shifted, Sunk};

// Where an extent stood in a stack of n extents, before it came to the top.
#[derive(Drop)]
pub enum Place {
    // nowhere: it is now one more
    Cold,
    // at this place, 1 at the top
    Depth(usize),
    // nowhere, and there is no room for one more: the stack is as it was
    Full,
    // the slice has fewer than n words: it is as it was
    BadCount,
}

// How many words of a stack are looked at together.
const BLOCK: usize = 8;

// How many words of a stack were passed, and the word that goes to the next place.
#[derive(Drop)]
struct Passed {
    count: usize,
    carry: u32,
}

// x comes to the top of the stack in the first n words: looked for from the top, what is passed moves one place down.
pub fn touch(stack: &mut [u32], n: usize, x: u32) -> Place
    ensures { (result ≡ place_of stack.old n x) × (stack.new ≡ left_by result n x stack.old) }
{
    if stack.len() < n {
        return Place::BadCount;
    }
    let passed = pass(stack, n, x);
    let mut carry = passed.carry;
    for i in passed.count..n {
        let y = std::mem::replace(&mut stack[i], carry);
        if y == x {
            return Place::Depth(i + 1);
        }
        carry = y;
    }
    if n < stack.len() {
        stack[n] = carry;
        return Place::Cold;
    }
    move_back(stack, carry);
    Place::Full
}

// From the top on, blocks of the first n words move one place down whole, with x before them, up to one that holds x.
fn pass(stack: &mut [u32], n: usize, x: u32) -> Passed
    requires { n ≤ length stack.old }
    ensures { Sunk stack.old x n stack.new result.carry result.count }
{
    let mut count: usize = 0;
    let mut carry = x;
    // Not by the block's number: with count = block * BLOCK a touch takes up to 36% more time where a linker puts it badly.
    for _ in 0..n / BLOCK {
        let end = count + BLOCK;
        if reuse_rows::contains(&stack[count..end], x) {
            break;
        }
        carry = down(&mut stack[count..end], carry);
        count = end;
    }
    Passed { count, carry }
}

// Each word moves one place down, `first` comes in on top, and the last comes out.
fn down(row: &mut [u32], first: u32) -> u32
    ensures { Shifted row.old first row.new result (length row.old) }
{
    let mut carry = first;
    for word in row.iter_mut() {
        carry = std::mem::replace(word, carry);
    }
    carry
}

// Each word moves one place up, the first is lost, and `last` comes in below.
fn move_back(stack: &mut [u32], last: u32)
    ensures { stack.new ≡ drop 1 (stack.old ++ (last ∷ [])) }
{
    let mut carry = last;
    // By a loop: `copy_within` needs memmove, which the archive for C would want from outside.
    for i in (0..stack.len()).rev() {
        carry = std::mem::replace(&mut stack[i], carry);
    }
}
