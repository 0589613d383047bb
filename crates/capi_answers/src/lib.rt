// Answers as one signed number: what was asked for, or the negative of the refusal's number.
#![tactic(auto)]

ghost use Rattle.std.specs.Prelude.{◌≡◌, min, pos};
ghost use Rattle.reuse.specs.Refusals.{refusal_number};
ghost use Rattle.capi_answers.specs.Answers.{negative, most_signed, counted, counted_most, shared, share_left, told, sums_left, slots_left, changed, change_left, sized, words_left, done};

use allowance_calls::SmallestCache;
use reuse::Refusal;
use session_calls::Answer;
use summary_calls::HitShare;

// The largest signed number.
const MOST: usize = i64::MAX as usize;

// A refusal: the negative of its number.
fn refusal(why: Refusal) -> i64
    ensures { result ≡ negative (refusal_number why) }
{
    -i64::from(u32::from(why))
}

// A number, or the largest signed one.
fn capped(n: usize) -> i64
    ensures { result ≡ pos (min n most_signed) }
{
    n.min(MOST) as i64
}

// How many words were written, counted to at most the largest signed number, or the refusal.
pub fn count(written: Result<usize, Refusal>) -> i64
    ensures { result ≡ counted_most written }
{
    written.map_or_else(refusal, capped)
}

// The number, or the refusal.
pub fn number(answer: Result<u32, Refusal>) -> i64
    ensures { result ≡ counted answer }
{
    answer.map_or_else(refusal, i64::from)
}

// 0 for what was done, or the refusal.
pub fn done(answer: Result<(), Refusal>) -> i64
    ensures { result ≡ done answer }
{
    answer.map_or_else(refusal, |()| 0)
}

// 1 with the share left in its place, 0 for 'no reads', or the refusal.
pub fn share(answer: Result<HitShare, Refusal>, place: &mut f64) -> i64
    ensures { (result ≡ shared answer) × (place.new ≡ share_left answer place.old) }
{
    match answer {
        Ok(HitShare::Share(share)) => {
            *place = share;
            1
        }
        Ok(HitShare::NoReads) => 0,
        Err(why) => refusal(why),
    }
}

// A read's answer as the buffer of distances writes it, or the refusal; the sums read and the slots looked at are left in
// their places.
pub fn read(answer: Result<Answer, Refusal>, sums: &mut u32, slots: &mut u32) -> i64
    ensures { (result ≡ told answer) × (sums.new ≡ sums_left answer sums.old) × (slots.new ≡ slots_left answer slots.old) }
{
    let answer = match answer {
        Ok(answer) => answer,
        Err(why) => return refusal(why),
    };
    match answer {
        Answer::Cold {
            number,
            slots_looked,
        } => {
            *sums = 0;
            *slots = slots_looked;
            i64::from(reuse::COLD_BASE) + i64::from(number)
        }
        Answer::Distance {
            distance,
            sums_read,
            slots_looked,
        } => {
            *sums = sums_read;
            *slots = slots_looked;
            i64::from(distance)
        }
    }
}

// 0 with the change of the misses left in its place, or the refusal.
pub fn insertion(answer: Result<i64, Refusal>, place: &mut i64) -> i64
    ensures { (result ≡ changed answer) × (place.new ≡ change_left answer place.old) }
{
    if let Ok(change) = answer {
        *place = change;
    }
    done(answer.map(|_| ()))
}

// The smallest size with the number of words of H read left in its place, or the refusal.
pub fn size(answer: Result<SmallestCache, Refusal>, place: &mut u32) -> i64
    ensures { (result ≡ sized answer) × (place.new ≡ words_left answer place.old) }
{
    if let Ok(found) = &answer {
        *place = found.words_read;
    }
    number(answer.map(|found| found.size))
}
