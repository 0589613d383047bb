// Texts in lent memory: a plan carried out on a log, and a log text listed.
ghost use Rattle.std.specs.Prelude.{◌≡◌};
ghost use Rattle.plan_calls.specs.Calls.{run_call};
ghost use Rattle.capi_answers.specs.Answers.{counted};
ghost use Rattle.listing_memory.specs.Calls.{list_call};

// A plan text carried out on a log: the words of the log's summary at the front of `out`, how many.
#[unsafe(no_mangle)]
pub extern "C" fn jemqolu_plan(text: &[u8], log: &[u32], work: &mut [u32], out: &mut [u32]) -> i64
    ensures is { result ≡ counted (run_call text.now log.now work.old out.old).answer }
    ensures work { work.new ≡ (run_call text.now log.now work.old out.old).work }
    ensures out { out.new ≡ (run_call text.now log.now work.old out.old).out }
{
    capi_answers::count(plan::run(text, log, work, out))
}

// A log text listed: the bytes of its listing at the front of `out`, how many.
#[unsafe(no_mangle)]
pub extern "C" fn jemqolu_list(text: &[u8], out: &mut [u8]) -> i64
    ensures { (result ≡ counted (list_call text.now out.old).answer) × (out.new ≡ (list_call text.now out.old).buffer) }
{
    capi_answers::count(listing_memory::list(text, out))
}
