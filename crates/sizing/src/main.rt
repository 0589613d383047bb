// Lists a log text: standard input is the log text, standard output its listing or its refusal.
#![tactic(auto)]

use listing::Lister;
use std::io;
use std::io::{Read, Write};

// Feeds standard input up to its end or to the first faulty line, then writes the page.
fn main(rt: HostRuntime) -> io::Result<()> {
    let mut input = rt.stdin();
    let mut buf = [0u8; 65536];
    let mut lister = Lister::new();
    // By hand: so many reads at most, for that an input ends is not proved of a `while`.
    for _ in 0..u64::MAX {
        let n = input.read(&mut buf)?;
        if n == 0 {
            break;
        }
        lister = lister.feed(&buf[..n]);
        if !lister.takes_more() {
            break;
        }
    }
    rt.stdout().write_all(lister.finish().text())
}
