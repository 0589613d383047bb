// The lines of a plan text.
#![tactic(auto)]

ghost use Rattle.std.specs.Prelude.{◌≡◌, ◌+◌, ◌≤◌, length, drop};
ghost use Rattle.texts.specs.Digits.{number_of};
ghost use Rattle.texts.specs.PlanPlaces.{number_at, form_at};
ghost use Rattle.plan_lines.specs.Lines.{line_found, place_of, LineWithin, LineEnd};

// A line and the position past it: a seg with brackets after its own, or an opened join.
#[derive(Drop)]
pub enum Line {
    Seg {
        reads: u64,
        closes: usize,
        next: usize,
    },
    Join {
        next: usize,
    },
}

// The position past a line that ends at `at`, if one does.
fn line_end(s: &[u8], at: usize) -> Option<usize>
    ensures { LineEnd s.now at result }
{
    if s.len() <= at {
        return None;
    }
    if s[at] != b'\n' {
        return None;
    }
    Some(at + 1)
}

// A seg's line from its number on.
fn seg_at(s: &[u8], at: usize) -> Option<Line>
    requires { at ≤ length s.now }
    ensures is { place_of s.now result ≡ number_at (number_of (drop at s.now)) }
    ensures within { LineWithin at (length s.now) result }
{
    let (reads, end) = texts_pieces::number_at(s, at)?;
    let run = texts_pieces::run_of(s, end, b')', s.len() - end);
    if run == 0 {
        return None;
    }
    let next = line_end(s, end + run)?;
    Some(Line::Seg {
        reads,
        closes: run - 1,
        next,
    })
}

// A line after its leading spaces.
fn form_at(s: &[u8], at: usize) -> Option<Line>
    requires { at ≤ length s.now }
    ensures is { place_of s.now result ≡ form_at (drop at s.now) }
    ensures within { LineWithin at (length s.now) result }
{
    if texts_pieces::word_at(s, at, b"(join") {
        let next = line_end(s, at + 5)?;
        return Some(Line::Join { next });
    }
    if texts_pieces::word_at(s, at, b"(seg ") {
        return seg_at(s, at + 5);
    }
    None
}

// The line at `at` under `under` brackets; none past the end.
pub fn line_at(s: &[u8], at: usize, under: usize) -> Option<Line>
    ensures { result ≡ line_found s.now at under }
{
    if s.len() < at {
        return None;
    }
    if texts_pieces::run_of(s, at, b' ', under) != under {
        return None;
    }
    form_at(s, at + under)
}
