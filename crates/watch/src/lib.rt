// A watch on one cache size: reads, cold reads and hits, kept with the caller and changed there by each answer.
#![tactic(auto, unfolding(crate::specs::Watching::sound_of, crate::specs::Watching::counted_by, crate::specs::Watching::noted_of, crate::specs::Watching::misses_call, crate::specs::Watching::share_call))]

ghost use Rattle.std.specs.Prelude.{◌≡◌, true, ◌+◌, ◌≤◌};
ghost use Rattle.watch.specs.Watching.{new_of, sound_of, refused, in_range, counted_by, noted_of, misses_call, share_call, taken_of, heard_of};

use reuse::Refusal;
use session_calls::Answer;
use summary_calls::HitShare;

// The size watched, and the counts.
#[derive(Clone, Copy)]
pub struct Watch {
    pub size: u32,
    pub reads: u32,
    pub cold: u32,
    pub hits: u32,
}

// A read's answer as the watch takes it: of a cold one its number does not matter. No Option<u32> of the distance: the cases are
// named as the paper names a read's answers.
#[derive(Drop)]
pub enum Reading {
    Cold,
    Distance(u32),
}

impl From<Answer> for Reading {
    ghost from_gives = { λ answer reading. reading ≡ taken_of answer };

    fn from(answer: Answer) -> Self {
        match answer {
            Answer::Cold { .. } => Reading::Cold,
            Answer::Distance { distance, .. } => Reading::Distance(distance),
        }
    }
}

// The watch after an update, beside its answer.
#[derive(Drop)]
pub struct Change {
    pub watch: Watch,
    pub outcome: Result<(), Refusal>,
}

// A new watch for a size.
pub fn new_watch(size: u32) -> Watch
    ensures { result ≡ new_of size }
{
    Watch {
        size,
        reads: 0,
        cold: 0,
        hits: 0,
    }
}

// Whether the watch is sound. No sum is made, so none can wrap.
pub fn sound(w: Watch) -> bool
    ensures { result ≡ sound_of w }
{
    w.reads <= reuse::MAX_READS && w.cold <= w.reads && w.hits <= w.reads - w.cold
}

// The watch as it was, beside the refusal.
fn refused(w: Watch, refusal: Refusal) -> Change
    ensures { result ≡ refused w refusal }
{
    Change {
        watch: w,
        outcome: Err(refusal),
    }
}

// A read more of a sound watch, with this many cold reads and hits more.
fn counted(w: Watch, cold: u32, hits: u32) -> Change
    requires { (sound_of w ≡ true) × (cold + hits ≤ 1) }
    ensures { result ≡ counted_by w cold hits }
{
    if w.reads == reuse::MAX_READS {
        return refused(w, Refusal::TooManyReads);
    }
    Change {
        watch: Watch {
            size: w.size,
            reads: w.reads + 1,
            cold: w.cold + cold,
            hits: w.hits + hits,
        },
        outcome: Ok(()),
    }
}

// Whether d is a distance between 1 and the limit of extents.
fn in_range(d: u32) -> bool
    ensures { result ≡ in_range d }
{
    (1..=reuse::MAX_EXTENTS).contains(&(d as usize))
}

// The watch after one more answer.
pub fn noted(w: Watch, reading: Reading) -> Change
    ensures { result ≡ noted_of w reading }
{
    if !sound(w) {
        return refused(w, Refusal::Unsound);
    }
    match reading {
        Reading::Cold => counted(w, 1, 0),
        Reading::Distance(d) if in_range(d) => counted(w, 0, u32::from(d <= w.size)),
        Reading::Distance(_) => refused(w, Refusal::OutOfRange),
    }
}

// The same on a record that the caller lends: it is changed there.
pub fn note(w: &mut Watch, reading: Reading) -> Result<(), Refusal>
    ensures { (result ≡ (noted_of w.old reading).outcome) × (w.new ≡ (noted_of w.old reading).watch) }
{
    let Change { watch, outcome } = noted(*w, reading);
    *w = watch;
    outcome
}

// The misses: reads less hits.
pub fn misses(w: Watch) -> Result<u32, Refusal>
    ensures { result ≡ misses_call w }
{
    if !sound(w) {
        return Err(Refusal::Unsound);
    }
    Ok(w.reads - w.hits)
}

// The hit share: hits by the reads that some size could have served, reads less cold reads.
pub fn share(w: Watch) -> Result<HitShare, Refusal>
    ensures { result ≡ share_call w }
{
    let reads = w.reads;
    let hits = reads - misses(w)?;
    let servable = reads - w.cold;
    Ok(summary::share_of(hits, servable))
}

// What the watch takes of a session's answer.
pub fn reading_of(answer: Result<Answer, Refusal>) -> Result<Reading, Refusal>
    ensures { result ≡ heard_of answer }
{
    Ok(Reading::from(answer?))
}
