// A log text listed in memory.
#![tactic(auto)]

ghost use Rattle.std.specs.Prelude.{◌≡◌};
ghost use Rattle.listing_memory.specs.Calls.{list_call};

use listing::Lister;
use reuse::Refusal;

// The listing of a log text, at the front of `out`.
pub fn list(text: &[u8], out: &mut [u8]) -> Result<usize, Refusal>
    ensures { (result ≡ (list_call text.now out.old).answer) × (out.new ≡ (list_call text.now out.old).buffer) }
{
    let lister = Lister::new().feed(text);
    // Not by `?`: which refusal is handed on is said here, for the edit that hands on another.
    if let Err(refusal) = lister.verdict() {
        return Err(refusal);
    }
    let page = lister.finish();
    if out.len() < page.len {
        return Err(Refusal::NoRoom);
    }
    reuse_copies::put(out, 0, page.text());
    Ok(page.len)
}
