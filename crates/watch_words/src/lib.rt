// A watch kept in lent words.
#![tactic(auto, unfolding(reuse_rows::specs::Rows::put_at, reuse_rows::specs::Rows::placed, summary_calls::specs::Calls::wrote, crate::specs::Layout::watch_in, crate::specs::Layout::watch_laid, crate::specs::Calls::new_watch, crate::specs::Calls::held_in, crate::specs::Calls::note_in, crate::specs::Calls::misses_in, crate::specs::Calls::share_in))]

ghost use Rattle.std.specs.Prelude.{◌≡◌, ◌≤◌, length};
ghost use Rattle.reuse_rows.specs.Rows.{put_at};
ghost use Rattle.watch_words.specs.Layout.{watch_length, watch_laid};
ghost use Rattle.watch_words.specs.Calls.{new_watch, held_in, reading_at, note_in, watch_left, misses_in, share_in};

use reuse::Refusal;
use summary_calls::HitShare;
use watch::{Reading, Watch};

// The words of a watch: its size, its reads, its cold reads, its hits.
const WATCH: usize = 4;

// The words of cold reads: 65,536 plus a number from 1 to the limit of extents.
const FIRST_COLD: u32 = reuse::COLD_BASE + 1;

const LAST_COLD: u32 = reuse::COLD_BASE + reuse::MAX_EXTENTS as u32;

// The watch in the words; too few words are no sound watch.
fn watch_in(words: &[u32]) -> Result<Watch, Refusal>
    ensures { result ≡ held_in words.now }
{
    let [size, reads, cold, hits, ..] = *words else {
        return Err(Refusal::Unsound);
    };
    Ok(Watch {
        size,
        reads,
        cold,
        hits,
    })
}

// The watch's words are put to the front of the row.
fn put_watch(words: &mut [u32], w: Watch)
    requires { watch_length ≤ length words.old }
    ensures { words.new ≡ put_at words.old 0 (watch_laid w) }
{
    reuse_copies::put(words, 0, &[w.size, w.reads, w.cold, w.hits]);
}

// A word as the buffer of distances writes it: a cold read, whatever its number, or else a distance.
fn reading(word: u32) -> Reading
    ensures { result ≡ reading_at word }
{
    match word {
        FIRST_COLD..=LAST_COLD => Reading::Cold,
        distance => Reading::Distance(distance),
    }
}

// A new watch's words at the front of the row.
pub fn new_watch(size: u32, words: &mut [u32]) -> Result<usize, Refusal>
    ensures { (result ≡ (new_watch size words.old).answer) × (words.new ≡ (new_watch size words.old).buffer) }
{
    if words.len() < WATCH {
        return Err(Refusal::NoRoom);
    }
    put_watch(words, watch::new_watch(size));
    Ok(WATCH)
}

// The watch in the words takes one more answer, as the buffer of distances writes it.
pub fn read(words: &mut [u32], word: u32) -> Result<(), Refusal>
    ensures { (result ≡ (note_in words.old word).outcome) × (words.new ≡ watch_left (note_in words.old word).outcome (note_in words.old word).watch words.old) }
{
    let w = watch_in(words)?;
    let change = watch::noted(w, reading(word));
    change.outcome?;
    put_watch(words, change.watch);
    Ok(())
}

// The misses of the watch in the words.
pub fn misses(words: &[u32]) -> Result<u32, Refusal>
    ensures { result ≡ misses_in words.now }
{
    watch::misses(watch_in(words)?)
}

// The hit share of the watch in the words.
pub fn share(words: &[u32]) -> Result<HitShare, Refusal>
    ensures { result ≡ share_in words.now }
{
    watch::share(watch_in(words)?)
}
