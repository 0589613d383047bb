// Pieces of output laid on a page of bytes.
#![tactic(auto)]

ghost use Rattle.std.specs.Prelude.{◌≡◌, ◌+◌, ◌≤◌};
ghost use Rattle.texts.specs.Digits.{decimal};
ghost use Rattle.listing_texts.specs.Pages.{row_closes, line_end};
ghost use Rattle.listing_rows.specs.Laying.{laid_at, lay, lay_all, named_pieces, row_pieces};

// The bytes are laid from place `at` on; the answer is the place after them, or `at` where they do not fit.
#[tactic(auto, using(crate::proofs::Laying::lay_over))]
fn put(page: &mut [u8], at: usize, bytes: &[u8]) -> usize
    ensures { laid_at page.new result ≡ lay (laid_at page.old at) bytes.now }
{
    if page.len() < at || page.len() - at < bytes.len() {
        return at;
    }
    reuse_copies::put(page, at, bytes);
    at + bytes.len()
}

// The digits of a number are laid from place `at` on; they are made from the last to the first.
fn put_number(page: &mut [u8], at: usize, n: u32) -> usize
    ensures { laid_at page.new result ≡ lay (laid_at page.old at) (decimal n) }
{
    let mut digits = [0u8; 10];
    let mut first = digits.len();
    let mut left = n;
    // No count of steps: one for each digit that the number has.
    loop {
        first -= 1;
        digits[first] = b'0' + (left % 10) as u8;
        left /= 10;
        if left == 0 {
            break;
        }
    }
    put(page, at, &digits[first..])
}

// A word and a number after it are laid from place `at` on.
pub fn put_named(page: &mut [u8], at: usize, word: &[u8], n: u32) -> usize
    ensures { laid_at page.new result ≡ lay_all (laid_at page.old at) (named_pieces word.now n) }
{
    let named = put(page, at, word);
    put_number(page, named, n)
}

// The brackets and the end of a row that `rows` more follow are laid from place `at` on.
pub fn put_end(page: &mut [u8], at: usize, rows: usize) -> usize
    ensures { laid_at page.new result ≡ lay (laid_at page.old at) (line_end (row_closes rows)) }
{
    let last = rows == 0;
    if last {
        return put(page, at, b"))\n");
    }
    put(page, at, b")\n")
}

// The row of one size, which `rows` more follow, is laid from place `at` on.
pub fn put_at(page: &mut [u8], at: usize, size: u32, misses: u32, rows: usize) -> usize
    ensures { laid_at page.new result ≡ lay_all (laid_at page.old at) (row_pieces size misses rows) }
{
    let sized = put_named(page, at, b" (at ", size);
    let missed = put_named(page, sized, b" ", misses);
    put_end(page, missed, rows)
}
