// Feeds log texts to the lister byte by byte, and in cuttings into two or three pieces.
#![tactic(auto)]

mod long;
mod pieces;
mod report;
mod stored;

use std::io;

// The texts on standard input, then the longest ones.
fn main(rt: HostRuntime) -> io::Result<()> {
    stored::all(&rt, rt.stdin())?;
    long::all(&rt)
}
