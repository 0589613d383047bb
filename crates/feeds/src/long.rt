// Texts at the limit of reads.
use crate::report;
use listing::Lister;
use reuse::MAX_READS;
use std::io;

// A text of so many reads of one extent, fed line by line.
fn of_reads(rt: &impl Print, name: &[u8], reads: u32) -> io::Result<()> {
    let none = Lister::new();
    let mut lister = none.feed(b"(trace\n");
    for i in 1..reads {
        lister = lister.feed(b" (read 5)\n");
    }
    let whole = lister.feed(b" (read 5))\n");
    report::output(rt, name, whole.finish().text())
}

// Both texts at the limit.
pub fn all(rt: &impl Print) -> io::Result<()> {
    of_reads(rt, b"1048576 reads, line by line", MAX_READS)?;
    of_reads(rt, b"1048577 reads, line by line", MAX_READS + 1)
}
