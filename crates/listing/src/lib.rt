// The listing of a log text: its reads, its cold reads, and for every size from 1 to the number of its extents the misses.
#![tactic(auto)]

ghost use Rattle.std.specs.Prelude.{◌≡◌, ◌≤◌, take};
ghost use Rattle.reuse.specs.Limits.{max_extents};
ghost use Rattle.texts.specs.Logs.{longest_line};
ghost use Rattle.listing_texts.specs.Feeding.{state_by, printed_at, verdict_at};
ghost use Rattle.listing_texts.specs.Pages.{page_bytes};
ghost use Rattle.listing_tally.specs.Rows.{tally_in, taken_by};
ghost use Rattle.listing_pages.specs.Texts.{page_of};
ghost use Rattle.listing.specs.Listers.{sound_lister, state_of, lister_with, lister_of, empty_lister, takes_more, fed_of};

pub use listing_pages::{PAGE_BYTES, Page};
pub use listing_tally::Phase;
use listing_tally::{LONGEST, Progress};
use listing_turns::Turn;
use reuse::Refusal;

// A log text taken so far: what is held of a line that has not ended, how far the text is, and the tally of its reads.
// Arrays with their lengths beside, since nothing is allocated, and damaged ones can be handed in.
#[derive(Clone, Copy, PartialEq, Eq)]
pub struct Lister {
    pub line: [u8; LONGEST],
    pub held: usize,
    pub phase: Phase,
    pub reads: u32,
    pub extents: usize,
    pub stack: [u32; reuse::MAX_EXTENTS],
    pub counts: [u32; reuse::MAX_EXTENTS],
}

// The lister that holds the first bytes of a line, this progress and the tally in the first words of two rows, and 0 after them.
fn laid(
    line: [u8; LONGEST],
    held: usize,
    progress: Progress,
    stack: [u32; reuse::MAX_EXTENTS],
    counts: [u32; reuse::MAX_EXTENTS],
) -> Lister
    requires { (held ≤ longest_line) × (progress.extents ≤ max_extents) }
    ensures { result ≡ lister_with (take held line) progress.phase (tally_in progress.reads progress.extents stack counts) }
{
    let Progress {
        phase,
        reads,
        extents,
    } = progress;
    let mut row = [0u8; LONGEST];
    reuse_copies::put(&mut row, 0, &line[..held]);
    let recent = reuse_copies::padded(&stack[..extents]);
    let counted = reuse_copies::padded(&counts[..extents]);
    Lister {
        line: row,
        held,
        phase,
        reads,
        extents,
        stack: recent,
        counts: counted,
    }
}

// The lister of a text taken so far, by its last turn and its tally; a refused one keeps nothing but its number.
fn stands(turn: Turn, stack: [u32; reuse::MAX_EXTENTS], counts: [u32; reuse::MAX_EXTENTS]) -> Lister
    requires { (turn.held ≤ longest_line) × (turn.progress.extents ≤ max_extents) }
    ensures { result ≡ lister_of (state_by (taken_by turn.progress.phase (tally_in turn.progress.reads turn.progress.extents stack counts)) (take turn.held turn.line)) }
{
    let line = turn.line;
    let held = turn.held;
    let progress = turn.progress;
    let phase = progress.phase;
    let none = Progress {
        phase,
        reads: 0,
        extents: 0,
    };
    match phase {
        Phase::Empty => laid(line, held, none, stack, counts),
        Phase::Inside => laid(line, held, progress, stack, counts),
        Phase::Whole => laid(line, held, progress, stack, counts),
        Phase::Stopped(_) => laid(line, 0, none, stack, counts),
    }
}

impl Lister {
    // Nothing taken yet.
    pub fn new() -> Lister
        ensures { result ≡ empty_lister }
    {
        Lister {
            line: [0; LONGEST],
            held: 0,
            phase: Phase::Empty,
            reads: 0,
            extents: 0,
            stack: [0; reuse::MAX_EXTENTS],
            counts: [0; reuse::MAX_EXTENTS],
        }
    }

    // Whether the lister stands for a text taken so far.
    pub fn sound(self) -> bool
        ensures { result ≡ sound_lister self }
    {
        let line = self.line;
        if !listing_soundness::holds_line(line, self.held) {
            return false;
        }
        let stack = self.stack;
        let counts = self.counts;
        if !listing_soundness::holds_tally(self.reads, self.extents, stack, counts) {
            return false;
        }
        let phase = self.phase;
        listing_soundness::holds_phase(phase, self.held, self.reads)
    }

    // Whether the lister is sound and its text not refused.
    pub fn takes_more(self) -> bool
        ensures { result ≡ takes_more self }
    {
        let phase = self.phase;
        let over = listing_turns::stopped(phase);
        if over {
            return false;
        }
        self.sound()
    }

    // One piece of the text more. A lister that takes no more comes back word for word.
    pub fn feed(self, bytes: &[u8]) -> Lister
        ensures { result ≡ fed_of self bytes.now }
    {
        if !self.takes_more() {
            return self;
        }
        let line = self.line;
        let mut turn = Turn {
            at: 0,
            line,
            held: self.held,
            progress: Progress {
                phase: self.phase,
                reads: self.reads,
                extents: self.extents,
            },
        };
        let mut stack = self.stack;
        let mut counts = self.counts;
        // No count of steps: each turn says where the next line begins.
        while turn.at < bytes.len() {
            turn = listing_turns::advance(bytes, turn, &mut stack, &mut counts);
        }
        stands(turn, stack, counts)
    }

    // Whether the text taken is listed or refused, if it ends here.
    pub fn verdict(self) -> Result<(), Refusal>
        ensures { result ≡ verdict_at (state_of self) }
    {
        if !self.sound() {
            return Err(Refusal::Unsound);
        }
        let phase = self.phase;
        match phase {
            Phase::Empty | Phase::Inside => Err(Refusal::FaultyLine),
            Phase::Stopped(n) => Err(Refusal::try_from(n).unwrap_or(Refusal::Unsound)),
            Phase::Whole => {
                let more = 0 < self.held;
                if more {
                    return Err(Refusal::FaultyLine);
                }
                Ok(())
            }
        }
    }

    // The whole output at the end of the text.
    pub fn finish(self) -> Page
        ensures prints { result ≡ page_of (printed_at (state_of self)) }
        ensures fits { result.len ≤ page_bytes }
    {
        match self.verdict() {
            Err(refusal) => listing_pages::refused_page(u32::from(refusal)),
            Ok(()) => {
                let v = self.extents;
                let counts = self.counts;
                listing_pages::listing_page(self.reads, &counts[..v])
            }
        }
    }
}
