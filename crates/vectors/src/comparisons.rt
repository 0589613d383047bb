// Logs read by sessions and by simulated caches of several sizes: a read is a hit exactly if its distance is at most the size.
ghost use Rattle.std.specs.Prelude.{◌<◌};

use crate::cache::Cache;
use crate::count::Count;
use crate::logs;
use reuse::Refusal;
use session::{Session, Step};
use session_calls::Answer;

// How many logs there are.
const LOGS: usize = 48;

// Log k has so many times k reads.
const LONGER: usize = 65;

// More reads than the longest log has.
const READS: usize = LOGS * LONGER;

// The sizes of the caches.
const SIZES: [u32; 16] = [
    0,
    1,
    2,
    3,
    5,
    8,
    13,
    21,
    55,
    144,
    256,
    512,
    1000,
    1023,
    1024,
    u32::MAX,
];

// The distance that a read's answer tells.
fn distance_in(answer: Result<Answer, Refusal>) -> Option<u32> {
    match answer {
        Ok(Answer::Distance { distance, .. }) => Some(distance),
        _ => None,
    }
}

// What a session tells of the reads of a log, one by one, at the front of a row.
fn tell(log: &[u32], distances: &mut [Option<u32>]) {
    let mut session = Session::new();
    for (&x, distance) in log.iter().zip(distances.iter_mut()) {
        let Step {
            answer,
            session: next,
        } = session.read(x);
        *distance = distance_in(answer);
        session = next;
    }
}

// What was told of a log's reads beside a simulated cache of one size.
fn at_size(log: &[u32], distances: &[Option<u32>], size: u32, count: &mut Count) {
    let mut cache = Cache::new(size);
    for (&x, distance) in log.iter().zip(distances) {
        let within = distance.is_some_and(|d| d <= size);
        count.tally(cache.read(x) == within);
    }
}

// Log k at every size.
fn one(k: usize, count: &mut Count)
    requires { k < 48 }
{
    let mut words = [0u32; READS];
    let log = &mut words[..k * LONGER];
    logs::fill(log, k as u32);
    let mut distances = [None; READS];
    tell(log, &mut distances);
    for size in SIZES {
        at_size(log, &distances, size, count);
    }
}

// All logs.
pub fn all() -> Count {
    let mut count = Count::default();
    for k in 0..LOGS {
        one(k, &mut count);
    }
    count
}
