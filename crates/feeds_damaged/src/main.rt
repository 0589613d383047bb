// Feeds listers that no text gives: each is refused 7 and comes back word for word.
#![tactic(auto)]

use listing::{Lister, Phase};
use listing_tally::LONGEST;
use reuse::MAX_EXTENTS;
use std::io;

// A line whose first byte is this.
fn line(byte: u8) -> [u8; LONGEST] {
    let mut line = [0; LONGEST];
    line[0] = byte;
    line
}

// A row with these two words in front.
fn row(first: u32, second: u32) -> [u32; MAX_EXTENTS] {
    let mut row = [0; MAX_EXTENTS];
    row[0] = first;
    row[1] = second;
    row
}

// A lister is fed the last read of a trace: whether its words are as they were, and its output.
fn fed(rt: &impl Print, name: &str, before: Lister) -> io::Result<()> {
    let after = before.feed(b" (read 7))\n");
    if before == after {
        println!(rt; "{name}, word for word as it was:")?;
    } else {
        println!(rt; "{name}, changed:")?;
    }
    rt.write_all(after.finish().text())
}

// One that has read the extent 7.
fn inside() -> Lister {
    Lister {
        phase: Phase::Inside,
        reads: 1,
        extents: 1,
        stack: row(7, 0),
        ..Lister::new()
    }
}

// One that a text gives, and damage to how far the text is.
fn phases(rt: &impl Print) -> io::Result<()> {
    let inside = inside();
    fed(rt, "inside", inside)?;
    let new = Lister::new();
    let phase = Phase::Stopped(3);
    fed(rt, "refused 3", Lister { phase, ..new })?;
    let phase = Phase::Stopped(1);
    fed(rt, "refused with reads", Lister { phase, ..inside })?;
    let phase = Phase::Empty;
    fed(
        rt,
        "reads before the first line",
        Lister { phase, ..inside },
    )
}

// Damage to what is held of a line.
fn lines(rt: &impl Print) -> io::Result<()> {
    let inside = inside();
    let newline = Lister {
        line: line(10),
        held: 1,
        ..inside
    };
    fed(rt, "byte 10 held", newline)?;
    fed(rt, "20 bytes held", Lister { held: 20, ..inside })?;
    let line = line(65);
    fed(rt, "a byte past those held", Lister { line, ..inside })
}

// Damage to the tally.
fn tallies(rt: &impl Print) -> io::Result<()> {
    let inside = inside();
    let many = Lister {
        reads: 1025,
        extents: 1025,
        ..inside
    };
    fed(rt, "1,025 extents", many)?;
    let twice = Lister {
        reads: 2,
        extents: 2,
        stack: row(7, 7),
        ..inside
    };
    fed(rt, "an extent twice", twice)?;
    fed(rt, "a read not counted", Lister { reads: 2, ..inside })?;
    let stack = row(7, 9);
    fed(rt, "a word past the stack", Lister { stack, ..inside })?;
    let counts = row(0, 9);
    fed(rt, "a word past the counts", Lister { counts, ..inside })
}

// All of them.
fn main(rt: HostRuntime) -> io::Result<()> {
    phases(&rt)?;
    lines(&rt)?;
    tallies(&rt)
}
