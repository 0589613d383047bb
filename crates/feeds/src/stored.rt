// The texts of an input: each is a name, a colon, the text's bytes, a semicolon and a newline.
use crate::pieces::part;
use crate::report;
use std::io;
use std::io::Read;

// The bytes after a name, and after a text.
const COLON: u8 = 58;

const SEMICOLON: u8 = 59;

// The most bytes that are taken of an input.
const MOST: u64 = 65536;

// Each text of a row, with its name.
fn each(rt: &impl Print, texts: &[u8]) -> io::Result<()> {
    let mut name: usize = 0;
    let mut colon: usize = 0;
    let mut text: usize = 0;
    for i in 0..texts.len() {
        if texts[i] == COLON {
            colon = i;
            text = i + 1;
        }
        if texts[i] == SEMICOLON {
            report::text(rt, part(texts, name, colon), part(texts, text, i))?;
            name = i + 2;
        }
    }
    Ok(())
}

// All texts of an input.
pub fn all<R: Read + Drop>(rt: &(impl AllocGlobal + Print), input: R) -> io::Result<()> {
    let mut texts = Vec::new(rt.alloc());
    input.take(MOST).read_to_end(&mut texts)?;
    each(rt, &texts)
}
