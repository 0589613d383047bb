// The pieces of a line that plans and logs are read by: a run of one byte, a word, a number, all up to the line's end.
#![tactic(auto)]

ghost use Rattle.std.specs.Prelude.{◌≡◌, ◌+◌, ◌≤◌, not, ◌==◌, take, drop};
ghost use Rattle.std.specs.List.{prefix_len};
ghost use Rattle.texts.specs.Words.{run_of, word_at};
ghost use Rattle.texts_pieces.specs.Pieces.{found_at, line_length};

// What stands from `at` on; nothing past the end.
fn rest(s: &[u8], at: usize) -> &[u8]
    ensures { result.now ≡ drop at s.now }
{
    &s[at.min(s.len())..]
}

// The first `most` bytes that stand from `at` on, or all where there are fewer.
fn window(s: &[u8], at: usize, most: usize) -> &[u8]
    ensures { result.now ≡ take most (drop at s.now) }
{
    let left = rest(s, at);
    &left[..most.min(left.len())]
}

// How many bytes b a row begins with.
fn leading(row: &[u8], b: u8) -> usize
    ensures { result ≡ prefix_len (λ x. x == b) row.now }
{
    row.iter().take_while(|x| **x == b).count()
}

// How many bytes stand in a row before its first byte 10.
fn before_end(row: &[u8]) -> usize
    ensures { result ≡ prefix_len (λ x. not (x == 10)) row.now }
{
    row.iter().take_while(|x| **x != b'\n').count()
}

// How many bytes b stand in a row at `at`, counted to at most `most`; none past the end.
pub fn run_of(s: &[u8], at: usize, b: u8, most: usize) -> usize
    ensures { result ≡ run_of most b (drop at s.now) }
{
    leading(window(s, at, most), b)
}

// Whether the bytes of w stand at `at`; past the end only no bytes do.
#[tactic(auto, using(crate::proofs::Pieces::word_past))]
pub fn word_at(s: &[u8], at: usize, w: &[u8]) -> bool
    ensures { result ≡ word_at w.now (drop at s.now) }
{
    if s.len() < at {
        return w.is_empty();
    }
    let front = window(s, at, w.len());
    front.len() == w.len() && front.iter().zip(w).all(|(x, c)| *x == *c)
}

// The value of a digit. By hand: `to_digit` is of a `char` and answers an Option, which no digit needs.
fn digit(b: u8) -> u64
    requires { (48 ≤ b) × (b ≤ 57) }
    ensures { result + 48 ≡ b }
{
    (b - b'0') as u64
}

// The number at `at`, 1 to 10 digits, no leading zero but 0 itself, and the position past it.
pub fn number_at(s: &[u8], at: usize) -> Option<(u64, usize)>
    ensures { result ≡ found_at s.now at }
{
    let mut v: u64 = 0;
    let mut end = at;
    for &b in rest(s, at) {
        if !b.is_ascii_digit() {
            break;
        }
        let zero = v == 0;
        let long = 1000000000 <= v;
        if end != at && (zero || long) {
            return None;
        }
        v = v * 10 + digit(b);
        end += 1;
    }
    if end == at {
        return None;
    }
    Some((v, end))
}

// How many bytes stand at `at` before the next byte 10, counted to at most `most`; none past the end.
pub fn line_length(s: &[u8], at: usize, most: usize) -> usize
    ensures { result ≡ line_length most (drop at s.now) }
{
    before_end(window(s, at, most))
}
