// A text fed in pieces, empty ones among them.
ghost use Rattle.std.specs.Prelude.{◌<◌, ◌≤◌, length};

use listing::{Lister, Page};

// The most bytes of a text that is cut into three pieces.
const SHORT: usize = 100;

// A longer text is cut before every byte whose place is a multiple of this, and so at each place of a line in some line.
const APART: usize = 7;

// The page of a text fed byte by byte.
pub fn by_bytes(text: &[u8]) -> Page {
    let mut lister = Lister::new();
    for i in 0..text.len() {
        lister = lister.feed(&text[i..i + 1]);
    }
    lister.finish()
}

// The page of a text fed in three pieces, cut before byte a and before byte b.
fn by_three(text: &[u8], a: usize, b: usize) -> Page
    requires a_le_b { a ≤ b }
    requires b_in_bounds { b ≤ length text.now }
{
    let none = Lister::new();
    let first = none.feed(&text[0..a]);
    let second = first.feed(&text[a..b]);
    let third = second.feed(&text[b..]);
    third.finish()
}

// The bytes from one place up to another, or none where there are not so many.
pub fn part<'a>(bytes: &'a [u8], from: usize, to: usize) -> &'a [u8] {
    if from <= to && to <= bytes.len() {
        return &bytes[from..to];
    }
    &bytes[0..0]
}

// Whether the cutting before byte a and before byte b gives the output wanted.
fn gives(text: &[u8], a: usize, b: usize, wanted: &[u8]) -> bool
    requires a_le_b { a ≤ b }
    requires b_in_bounds { b ≤ length text.now }
{
    by_three(text, a, b).text() == wanted
}

// How many of the cuttings before byte b, and before each byte up to it whose place is a multiple of `apart`, give the
// output wanted; or else how many do not.
fn cut_at(text: &[u8], b: usize, apart: usize, wanted: &[u8], agree: bool) -> u64
    requires apart_nonzero { 0 < apart }
    requires b_in_bounds { b ≤ length text.now }
{
    let mut n: u64 = 0;
    for a in 0..=b {
        if a % apart == 0 {
            let same = gives(text, a, b, wanted);
            n = std::num::wrapping_add_u64(n, (same == agree) as u64);
        }
    }
    n
}

// The same of all cuttings into three pieces.
fn threes(text: &[u8], wanted: &[u8], agree: bool) -> u64 {
    let mut n: u64 = 0;
    for b in 0..=text.len() {
        n = std::num::wrapping_add_u64(n, cut_at(text, b, 1, wanted, agree));
    }
    n
}

// The same of all cuttings of a text into three pieces where it is short, and of cuttings into two where it is long.
pub fn cuttings(text: &[u8], wanted: &[u8], agree: bool) -> u64 {
    if SHORT < text.len() {
        return cut_at(text, text.len(), APART, wanted, agree);
    }
    threes(text, wanted, agree)
}
