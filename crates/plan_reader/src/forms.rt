// The reader of one form and the reader of a join's parts, which call each other; the bytes left fall.
ghost use Rattle.std.specs.Prelude.{◌≡◌, suc, ◌+◌, ◌*◌, ◌≤◌, ◌<◌, max, length};
ghost use Rattle.texts.specs.Limits.{max_bytes, max_joins, max_seg};
ghost use Rattle.texts.specs.PlanOwed.{closable_after};
ghost use Rattle.plan_reader.specs.Answers.{FormIs, PartsIs, FormWithin};

use plan_lines::Line;
use reuse::Refusal;

// The longest seg.
const MAX_SEG: u64 = 1048576;

// The most joins open together.
const MAX_JOINS: usize = 8;

// The most parts of one join.
const MAX_PARTS: usize = 16;

// A form: the reads of its segs, its depth, the brackets after its own and the position past it.
#[derive(Drop)]
pub struct FormRead {
    pub reads: u64,
    pub depth: usize,
    pub closes: usize,
    pub next: usize,
}

// How many joins may close after the next part of a join with `count` parts, where `most` may after the join.
fn closable(most: usize, count: usize) -> usize
    requires { most ≤ max_joins }
    ensures { (result ≡ closable_after most count) × (result ≤ most + 1) }
{
    if count == 0 { 0 } else { most + 1 }
}

// The form at `at` under `under` joins, of which `most` may close after it, the innermost with `count` parts so far.
#[cycle(form_parts)]
pub fn form(
    s: &[u8],
    at: usize,
    under: usize,
    most: usize,
    count: usize,
) -> Result<FormRead, Refusal>
    requires { (at ≤ length s.now) × (length s.now ≤ max_bytes) × (under ≤ max_joins) × (most ≤ under) }
    ensures within { FormWithin at (length s.now) most under max_joins 0 result }
    ensures is { FormIs s.now at under most count result }
{
    let Some(l) = plan_lines::line_at(s, at, under) else {
        return Err(Refusal::FaultyLine);
    };
    match l {
        Line::Seg {
            reads,
            closes,
            next,
        } => {
            if most < closes {
                return Err(Refusal::FaultyLine);
            }
            if MAX_SEG < reads {
                return Err(Refusal::OutOfRange);
            }
            if MAX_PARTS <= count {
                return Err(Refusal::PlanTooLarge);
            }
            Ok(FormRead {
                reads,
                depth: 0,
                closes,
                next,
            })
        }
        Line::Join { next } => {
            if MAX_JOINS <= under {
                return Err(Refusal::PlanTooLarge);
            }
            if MAX_PARTS <= count {
                return Err(Refusal::PlanTooLarge);
            }
            parts(s, next, under + 1, most, 0, 0, 0)
        }
    }
}

// No struct of the place and the limits: each call within has other ones of both.
// The rest of a join at `at`, with `under` joins open, this one among them, after `count` parts of `reads` reads and the depth `low`.
#[cycle(form_parts)]
fn parts(
    s: &[u8],
    at: usize,
    under: usize,
    most: usize,
    count: usize,
    reads: u64,
    low: usize,
) -> Result<FormRead, Refusal>
    requires { (at ≤ length s.now) × (length s.now ≤ max_bytes) × (under ≤ max_joins) × (most < under) × (reads ≤ max_seg * at) × (count ≤ at) × (low + under ≤ max_joins) }
    ensures within { FormWithin at (length s.now) most under (suc max_joins) reads result }
    ensures is { PartsIs s.now at under most count reads low result }
{
    let part = form(s, at, under, closable(most, count), count)?;
    let total = reads + part.reads;
    let deep = low.max(part.depth);
    if 0 < part.closes {
        return Ok(FormRead {
            reads: total,
            depth: deep + 1,
            closes: part.closes - 1,
            next: part.next,
        });
    }
    parts(s, part.next, under, most, count + 1, total, deep)
}
