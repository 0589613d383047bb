// What the program prints.
use crate::pieces;
use std::io;

// The name of a text, and its output.
pub fn output(rt: &impl Print, name: &[u8], page: &[u8]) -> io::Result<()> {
    rt.write_all(name)?;
    rt.write_all(b":\n")?;
    rt.write_all(page)
}

// How many cuttings give that output, and how many do not.
fn counts(rt: &impl Print, agree: u64, differ: u64) -> io::Result<()> {
    println!(rt; "{agree} cuttings agree, {differ} differ")
}

// A text: its output fed byte by byte, and its cuttings.
pub fn text(rt: &impl Print, name: &[u8], text: &[u8]) -> io::Result<()> {
    let page = pieces::by_bytes(text);
    let wanted = page.text();
    output(rt, name, wanted)?;
    counts(
        rt,
        pieces::cuttings(text, wanted, true),
        pieces::cuttings(text, wanted, false),
    )
}
