// The reader of plan texts: what plan a text is, or why it is none.
#![tactic(auto)]

mod forms;

ghost use Rattle.std.specs.Prelude.{◌≡◌};
ghost use Rattle.texts.specs.PlanTexts.{plan_of};
ghost use Rattle.plan_reader.specs.Answers.{answer_of};

use reuse::Refusal;

// The most bytes of a plan text.
pub const MAX_BYTES: usize = 65536;

// A plan that was read: the reads that its segs cover, and its depth.
#[derive(Drop)]
pub struct PlanRead {
    pub reads: u64,
    pub depth: usize,
}

// The plan that a text is.
pub fn read(text: &[u8]) -> Result<PlanRead, Refusal>
    ensures { result ≡ answer_of (plan_of text.now) }
{
    if MAX_BYTES < text.len() {
        return Err(Refusal::PlanTooLarge);
    }
    let form = forms::form(text, 0, 0, 0, 0)?;
    if form.next < text.len() {
        return Err(Refusal::FaultyLine);
    }
    Ok(PlanRead {
        reads: form.reads,
        depth: form.depth,
    })
}
