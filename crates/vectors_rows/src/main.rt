// Prints the rows that are run and not proved: what a session answers at its limits, one line a row.
#![tactic(auto)]

ghost use Rattle.std.specs.Prelude.{◌<◌};

use reuse::{MAX_EXTENTS, MAX_READS, SLOTS};
use session::{Session, Step};
use session_calls::Answer;
use std::io;

// The session after so many reads that go round so many extents.
fn after(reads: u32, extents: u32) -> Session
    requires { 0 < extents }
{
    let mut session = Session::new();
    for i in 0..reads {
        session = session.read(i % extents).session;
    }
    session
}

// One row: the call, and what it answered. The session after it is handed on.
fn row(rt: &impl Print, call: &str, step: Step) -> io::Result<Session> {
    let Step { answer, session } = step;
    print!(rt; "{call}: ")?;
    match answer {
        Ok(
            Answer::Cold {
                number,
                slots_looked,
            },
        ) => println!(rt; "cold {number}, slots looked at {slots_looked}")?,
        Ok(
            Answer::Distance {
                distance,
                sums_read,
                slots_looked,
            },
        ) => {
            println!(rt;
                "distance {distance}, sums read {sums_read}, slots looked at {slots_looked}"
            )?
        }
        Err(refusal) => println!(rt; "refused {}", u32::from(refusal))?,
    }
    Ok(session)
}

// All rows.
fn main(rt: HostRuntime) -> io::Result<()> {
    let slots = SLOTS as u32;
    let extents = MAX_EXTENTS as u32;
    let one = after(slots - 1, 1);
    let moved = row(&rt, "one extent, read 2,048", one.read(0))?;
    row(&rt, "one extent, read 2,049", moved.read(0))?;
    let last_new = after(extents - 1, extents - 1);
    let full = row(&rt, "the 1,024th extent", last_new.read(extents - 1))?;
    let known = row(&rt, "1,024 extents, then a known one", full.read(0))?;
    row(&rt, "1,024 extents, then another", known.read(extents))?;
    let twice = after(slots, extents);
    let kept = row(
        &rt,
        "1,024 extents twice, then another",
        twice.read(extents),
    )?;
    row(&rt, "1,024 extents twice, then a known one", kept.read(0))?;
    let most = after(MAX_READS - 1, 1);
    let last = row(&rt, "read 1,048,576", most.read(0))?;
    row(&rt, "the next", last.read(0))?;
    Ok(())
}
