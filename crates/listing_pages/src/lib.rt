// Pages of output: that of a listing, and that of a refusal.
#![tactic(auto)]

ghost use Rattle.std.specs.Prelude.{◌≡◌, length, take};
ghost use Rattle.listing_texts.specs.Listings.{refused_text};
ghost use Rattle.listing_texts.specs.Tallies.{misses_by};
ghost use Rattle.listing_texts.specs.Pages.{AddsUp, page_text};
ghost use Rattle.listing_rows.specs.Laying.{laid_at, lay_all};
ghost use Rattle.listing_pages.specs.Texts.{rows_pieces, listing_pieces, refused_pieces, page_of};

use reuse::Refusal;

// More bytes than the lines before the sizes' rows have.
const HEAD_ROOM: usize = 64;

// As many bytes as the row of any size has.
const ROW_ROOM: usize = 23;

// The bytes of a page.
pub const PAGE_BYTES: usize = HEAD_ROOM + ROW_ROOM * reuse::MAX_EXTENTS;

// A page of output: its first `len` bytes are the text. An array with its length beside, since nothing is allocated.
#[derive(Drop)]
pub struct Page {
    pub bytes: [u8; PAGE_BYTES],
    pub len: usize,
}

impl Page {
    // Its text: the first `len` bytes, all where `len` is more.
    pub fn text(&self) -> &[u8]
        ensures { result.now ≡ take self.now.len self.now.bytes }
    {
        let shown = self.len.min(PAGE_BYTES);
        &self.bytes[..shown]
    }
}

// The rows of all sizes from 1 to the number of counts are laid from place `at` on.
fn put_rows(page: &mut [u8], at: usize, reads: u32, counts: &[u32]) -> usize
    requires { AddsUp reads counts.now }
    ensures { laid_at page.new result ≡ lay_all (laid_at page.old at) (rows_pieces (misses_by counts.now) 1 (length counts.now)) }
{
    let mut next = at;
    let mut misses = reads;
    for (i, &count) in counts.iter().enumerate() {
        misses -= count;
        let size = i + 1;
        let rows = counts.len() - size;
        let shown = size as u32;
        next = listing_rows::put_at(page, next, shown, misses, rows);
    }
    next
}

// The listing of so many reads, with these counts of the distances, is laid at the front.
fn put_listing(page: &mut [u8], reads: u32, counts: &[u32]) -> usize
    requires { AddsUp reads counts.now }
    ensures { laid_at page.new result ≡ lay_all (laid_at page.old 0) (listing_pieces reads (length counts.now) (misses_by counts.now)) }
{
    let cold = counts.len();
    let read = listing_rows::put_named(page, 0, b"(sizing\n (reads ", reads);
    let counted = listing_rows::put_named(page, read, b")\n (cold ", cold as u32);
    let closed = listing_rows::put_end(page, counted, cold);
    put_rows(page, closed, reads, counts)
}

// A refusal's text is laid at the front; it ends as a row does that another follows.
fn put_refused(page: &mut [u8], n: u32) -> usize
    ensures { laid_at page.new result ≡ lay_all (laid_at page.old 0) (refused_pieces n) }
{
    let numbered = listing_rows::put_named(page, 0, b"(refused ", n);
    listing_rows::put_end(page, numbered, 1)
}

// The page of a refusal.
pub fn refused_page(n: u32) -> Page
    ensures { result ≡ page_of (refused_text n) }
{
    let mut bytes = [0u8; PAGE_BYTES];
    let len = put_refused(&mut bytes, n);
    Page { bytes, len }
}

// The page of a listing: so many reads, with these counts of the distances. Refusal 7 where they do not add up.
pub fn listing_page(reads: u32, counts: &[u32]) -> Page
    ensures { result ≡ page_of (page_text reads counts.now) }
{
    let cold = counts.len();
    if reuse::MAX_EXTENTS < cold {
        return refused_page(u32::from(Refusal::Unsound));
    }
    if cold as u64 + reuse_rows::total(counts) != u64::from(reads) {
        return refused_page(u32::from(Refusal::Unsound));
    }
    let mut bytes = [0u8; PAGE_BYTES];
    let len = put_listing(&mut bytes, reads, counts);
    Page { bytes, len }
}
