// Compares each read of many logs with a direct cache simulation.
#![tactic(auto)]

mod cache;
mod comparisons;
mod count;
mod logs;

use std::io;

// How many reads were compared, and how many of them differ.
fn main(rt: HostRuntime) -> io::Result<()> {
    let all = comparisons::all();
    println!(rt; "hits: compared {}, differ {}", all.compared, all.differ)
}
