// Whether the parts of a lister stand for a log text taken so far.
#![tactic(auto)]

ghost use Rattle.std.specs.Prelude.{◌≡◌};
ghost use Rattle.listing_soundness.specs.Soundness.{holds_line, holds_tally, refuses_text, holds_phase};

use listing_tally::{LONGEST, Phase};
use reuse::{MAX_EXTENTS, Refusal};

// Whether the first `held` bytes begin a line, and 0 stands after them.
pub fn holds_line(line: [u8; LONGEST], held: usize) -> bool
    ensures { result ≡ holds_line line held }
{
    let over = LONGEST < held;
    if over {
        return false;
    }
    if texts_pieces::line_length(&line, 0, held) != held {
        return false;
    }
    let left = LONGEST - held;
    texts_pieces::run_of(&line, held, 0, left) == left
}

// Whether the rows hold a tally of so many reads and extents, and 0 after it.
pub fn holds_tally(
    reads: u32,
    extents: usize,
    stack: [u32; MAX_EXTENTS],
    counts: [u32; MAX_EXTENTS],
) -> bool
    ensures { result ≡ holds_tally reads extents stack counts }
{
    if MAX_EXTENTS < extents {
        return false;
    }
    let many = reuse::MAX_READS < reads;
    if many {
        return false;
    }
    if !reuse_tables::all_distinct(&stack[..extents]) {
        return false;
    }
    if extents as u64 + reuse_rows::total(&counts[..extents]) != u64::from(reads) {
        return false;
    }
    if !reuse_rows::all_zero(&stack[extents..]) {
        return false;
    }
    reuse_rows::all_zero(&counts[extents..])
}

// Whether a log text is refused with this number. The four stand in a pattern of their own: of a pattern `Ok(A | B)` the proof
// is not told which of them it was.
fn refuses_text(n: u32) -> bool
    ensures { result ≡ refuses_text n }
{
    let Ok(refusal) = Refusal::try_from(n) else {
        return false;
    };
    matches!(
        refusal,
        Refusal::FaultyLine | Refusal::OutOfRange | Refusal::TooManyReads | Refusal::TooManyExtents
    )
}

// Whether so many bytes held and so many reads go with how far the text is.
pub fn holds_phase(phase: Phase, held: usize, reads: u32) -> bool
    ensures { result ≡ holds_phase phase held reads }
{
    match phase {
        Phase::Empty => reads == 0,
        Phase::Inside => true,
        Phase::Whole => true,
        Phase::Stopped(n) => {
            if held != 0 {
                return false;
            }
            if reads != 0 {
                return false;
            }
            refuses_text(n)
        }
    }
}
