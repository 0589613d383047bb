// What a line does to a log text taken so far.
#![tactic(auto)]

ghost use Rattle.std.specs.Prelude.{◌≡◌};
ghost use Rattle.reuse.specs.Refusals.{refusal_number};
ghost use Rattle.texts.specs.Words.{after};
ghost use Rattle.texts.specs.Logs.{trace_word};
ghost use Rattle.listing_lines.specs.Forms.{head_found};
ghost use Rattle.listing_tally.specs.Standings.{stands_at, refused, go_on, head_taken, read_taken, line_taken, end_taken};

use reuse::Refusal;
use reuse_engine::Place;

// The bytes of the longest line.
pub const LONGEST: usize = 19;

// How far a text is: before its first line, inside the trace, at its end, or refused with this number.
#[derive(Clone, Copy, PartialEq, Eq)]
pub enum Phase {
    Empty,
    Inside,
    Whole,
    // A number, and no Refusal: a lister comes from outside with any.
    Stopped(u32),
}

// How far a text is, the reads taken, and how many extents they have.
#[derive(Clone, Copy)]
pub struct Progress {
    pub phase: Phase,
    pub reads: u32,
    pub extents: usize,
}

impl Progress {
    // The text is refused, its tally as it is.
    fn refused(self, refusal: Refusal) -> Progress
        ensures { result ≡ refused (refusal_number refusal) self.reads self.extents }
    {
        Progress {
            phase: Phase::Stopped(u32::from(refusal)),
            ..self
        }
    }
}

// A text that goes on, or that is at its end.
fn gone_on(ends: bool, reads: u32, extents: usize) -> Progress
    ensures { result ≡ go_on ends reads extents }
{
    let phase = if ends { Phase::Whole } else { Phase::Inside };
    Progress {
        phase,
        reads,
        extents,
    }
}

// The first line is taken.
fn take_head(line: &[u8], progress: Progress) -> Progress
    ensures { result ≡ head_taken progress.reads progress.extents (head_found (after trace_word line.now)) }
{
    let Some(ends) = listing_lines::head_of(line) else {
        return progress.refused(Refusal::FaultyLine);
    };
    gone_on(ends, 0, 0)
}

// A read is taken, the last one or not.
fn take_read(
    x: u64,
    ends: bool,
    progress: Progress,
    stack: &mut [u32],
    counts: &mut [u32],
) -> Progress
    ensures { stands_at result stack.new counts.new ≡ read_taken progress.reads progress.extents stack.old counts.old x ends }
{
    let Progress { reads, extents, .. } = progress;
    let full = reuse::MAX_READS <= reads;
    let Ok(extent) = u32::try_from(x) else {
        return progress.refused(Refusal::OutOfRange);
    };
    if full {
        return progress.refused(Refusal::TooManyReads);
    }
    if counts.len() < stack.len() {
        return progress.refused(Refusal::Unsound);
    }
    let place = reuse_engine::touch(stack, extents, extent);
    match place {
        Place::Cold => {
            counts[extents] = 0;
            gone_on(ends, reads + 1, extents + 1)
        }
        Place::Depth(d) => {
            let i = d - 1;
            counts[i] = counts[i].wrapping_add(1);
            gone_on(ends, reads + 1, extents)
        }
        Place::Full => progress.refused(Refusal::TooManyExtents),
        Place::BadCount => progress.refused(Refusal::Unsound),
    }
}

// A line is taken into the rows of a tally, on any rows.
pub fn take_line(line: &[u8], progress: Progress, stack: &mut [u32], counts: &mut [u32]) -> Progress
    ensures { stands_at result stack.new counts.new ≡ line_taken progress.reads progress.extents stack.old counts.old progress.phase line.now }
{
    match progress.phase {
        Phase::Empty => take_head(line, progress),
        Phase::Inside => {
            let Some((x, ends)) = listing_lines::row_of(line) else {
                return progress.refused(Refusal::FaultyLine);
            };
            take_read(x, ends, progress, stack, counts)
        }
        Phase::Whole => progress.refused(Refusal::FaultyLine),
        Phase::Stopped(_) => progress,
    }
}

// A line ends: its first `held` bytes stand in `line`, and `rest` are the others. A faulty line where it is too long. The rows
// are lent one by one, as they stand in a lister: a struct of two `&mut` would be made anew for each call.
pub fn end_line(
    line: [u8; LONGEST],
    held: usize,
    rest: &[u8],
    progress: Progress,
    stack: &mut [u32],
    counts: &mut [u32],
) -> Progress
    ensures { stands_at result stack.new counts.new ≡ end_taken progress.reads progress.extents stack.old counts.old progress.phase line held rest.now }
{
    if LONGEST < held || LONGEST - held < rest.len() {
        return progress.refused(Refusal::FaultyLine);
    }
    let none = held == 0;
    if none {
        return take_line(rest, progress, stack, counts);
    }
    let mut whole = line;
    reuse_copies::put(&mut whole, held, rest);
    let n = held + rest.len();
    take_line(&whole[..n], progress, stack, counts)
}
