// The lines of a log text, each without its byte 10.
#![tactic(auto)]

ghost use Rattle.std.specs.Prelude.{◌≡◌};
ghost use Rattle.texts.specs.Logs.{trace_word, row_of};
ghost use Rattle.texts.specs.Words.{after};
ghost use Rattle.listing_lines.specs.Forms.{row_found, head_found};

// A read's line: the extent, and whether the text ends with it; none where it is another line.
pub fn row_of(line: &[u8]) -> Option<(u64, bool)>
    ensures { result ≡ row_found (row_of line.now) }
{
    if !texts_pieces::word_at(line, 0, b" (read ") {
        return None;
    }
    let Some((extent, end)) = texts_pieces::number_at(line, 7) else {
        return None;
    };
    let left = line.len() - end;
    if texts_pieces::run_of(line, end, b')', left) != left {
        return None;
    }
    let open = left == 1;
    if open {
        return Some((extent, false));
    }
    if left == 2 {
        return Some((extent, true));
    }
    None
}

// The first line, `(trace`: whether the text ends with it; none where it is another line.
pub fn head_of(line: &[u8]) -> Option<bool>
    ensures { result ≡ head_found (after trace_word line.now) }
{
    if !texts_pieces::word_at(line, 0, b"(trace") {
        return None;
    }
    if line.len() == 6 {
        return Some(false);
    }
    let other = line.len() != 7;
    if other {
        return None;
    }
    let unclosed = line[6] != b')';
    if unclosed {
        return None;
    }
    Some(true)
}
