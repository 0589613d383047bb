// Carrying a plan out: a seg is summarized, a join's parts are joined from the inside out, left to right.
ghost use Rattle.std.specs.Prelude.{◌≡◌};
ghost use Rattle.plan_calls.specs.Standing.{Ready, Roomy};
ghost use Rattle.plan.specs.Evaluation.{Evaluates};

use plan_joins::LEVEL;
use plan_lines::Line;

// How far evaluation has come: the position past the form, the brackets after its own, the reads taken, and the words of the summary.
#[derive(Drop)]
pub struct Done {
    pub next: usize,
    pub closes: usize,
    pub taken: usize,
    pub words: usize,
}

// The plan at `at` under `under` joins, on the log's reads from `from` on, with `left` levels of work words. No struct of
// these: each form within is carried out at another place, with other reads and one level less.
pub fn evaluate(
    s: &[u8],
    at: usize,
    under: usize,
    log: &[u32],
    from: usize,
    left: usize,
    work: &mut [u32],
    out: &mut [u32],
) -> Done
    requires { Ready s.now at under log.now from left × Roomy s.now at under log.now work.old out.old left }
    ensures { Evaluates s.now at under log.now from left work.old out.old result work.new out.new }
{
    let Some(l) = plan_lines::line_at(s, at, under) else {
        return Done {
            next: at,
            closes: 0,
            taken: from,
            words: 0,
        };
    };
    match l {
        Line::Seg {
            reads,
            closes,
            next,
        } => {
            let taken = from + reads as usize;
            let words = summary::of_trace(&log[from..taken], out).unwrap_or(0);
            Done {
                next,
                closes,
                taken,
                words,
            }
        }
        Line::Join { next } => {
            let inner = under + 1;
            let below = left - 1;
            let mut done = Done {
                next,
                closes: 0,
                taken: from,
                words: 0,
            };
            // No count of steps: the form that was carried out says whether the join closes with it.
            while done.closes == 0 {
                let held = done.words;
                reuse_copies::put(work, 0, &out[..held]);
                done = evaluate(
                    s,
                    done.next,
                    inner,
                    log,
                    done.taken,
                    below,
                    &mut work[LEVEL..],
                    out,
                );
                done.words = plan_joins::join_held(work, held, out, done.words);
            }
            done.closes -= 1;
            done
        }
    }
}
