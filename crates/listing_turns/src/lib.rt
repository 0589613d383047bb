// A piece of a log text, taken line by line.
#![tactic(auto)]

ghost use Rattle.std.specs.Prelude.{◌≡◌};
ghost use Rattle.listing_turns.specs.Turns.{is_stopped, reaches, turn_after, advanced};

use listing_tally::{LONGEST, Phase, Progress};

// How far a piece is taken: the position, the bytes held of a line that has not ended, and the text so far. An array with its
// length beside, since nothing is allocated.
#[derive(Clone, Copy)]
pub struct Turn {
    pub at: usize,
    pub line: [u8; LONGEST],
    pub held: usize,
    pub progress: Progress,
}

// Whether a text is refused.
pub fn stopped(phase: Phase) -> bool
    ensures { result ≡ is_stopped phase }
{
    matches!(phase, Phase::Stopped(_))
}

// The turn after a line: on to the next one, or past the whole piece where the text is refused.
fn turned(line: [u8; LONGEST], progress: Progress, next: usize, len: usize) -> Turn
    ensures { result ≡ turn_after line progress next len }
{
    let at = if stopped(progress.phase) { len } else { next };
    Turn {
        at,
        line,
        held: 0,
        progress,
    }
}

// The piece is taken from a turn on to the end of its next line, or to its own end. Past a piece, or with more bytes held
// than the longest line has, nothing is taken.
pub fn advance(bytes: &[u8], turn: Turn, stack: &mut [u32], counts: &mut [u32]) -> Turn
    ensures { reaches result stack.new counts.new ≡ advanced bytes.now turn.at turn.line turn.held turn.progress.phase turn.progress.reads turn.progress.extents stack.old counts.old }
{
    let Turn {
        at,
        line,
        held,
        progress,
    } = turn;
    if bytes.len() < at || LONGEST < held {
        return Turn {
            at: bytes.len(),
            ..turn
        };
    }
    let n = texts_pieces::line_length(bytes, at, LONGEST + 1 - held);
    let end = at + n;
    let all = held + n;
    if end == bytes.len() && all <= LONGEST {
        let mut more = line;
        reuse_copies::put(&mut more, held, &bytes[at..end]);
        return Turn {
            at: end,
            line: more,
            held: all,
            progress,
        };
    }
    let rest = &bytes[at..end];
    let p = listing_tally::end_line(line, held, rest, progress, stack, counts);
    turned(line, p, end + 1, bytes.len())
}
