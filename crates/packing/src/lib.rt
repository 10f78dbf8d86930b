// An answer as one number, for the app's C layer: refusal + 256 × slot + 2^24 × value + 2^48 × free.
#![tactic(auto)]

ghost use Rattle.std.specs.Prelude.{◌≡◌};
ghost use Rattle.refusals.specs.Answers.{reply_of, outcome_of, refusal_of, done, refused};
ghost use Rattle.packing.specs.Packed.{clipped, clipped_at, check_outcome};

use refusals::Refused;

// An answer. A part that has no room beside the others loses what is too much; of the library's calls none does.
pub fn pack(a: Result<usize, Refused>) -> u64
    ensures { result ≡ clipped (outcome_of a) }
{
    match a {
        Ok(value) => pack_done(value, 0),
        Err(r) => pack_refused(r),
    }
}

// A value, and the free sectors of a listing. As above, a part that has no room loses what is too much.
#[tactic(auto, unfolding(crate::specs::Packed::clipped))]
pub fn pack_done(value: usize, free: usize) -> u64
    ensures { result ≡ clipped (done value free) }
{
    16777216 * (value % 16777216) as u64 + 281474976710656 * (free % 65536) as u64
}

// A refusal. As above, a slot that has no room loses what is too much.
#[tactic(auto, unfolding(crate::specs::Packed::clipped))]
pub fn pack_refused(r: Refused) -> u64
    ensures { result ≡ clipped (refused (refusal_of r)) }
{
    r.reason.number() as u64 + 256 * (r.slot % 65536) as u64
}

// A value, and a place in a chain: its sector in the slot's part, its offset in that of the free sectors. As above, a part that
// has no room loses what is too much.
#[tactic(auto, unfolding(crate::specs::Packed::clipped_at))]
pub fn pack_place(sector: usize, value: usize, offset: usize) -> u64
    ensures { result ≡ clipped_at sector value offset }
{
    256 * (sector % 65536) as u64
        + 16777216 * (value % 16777216) as u64
        + 281474976710656 * (offset % 65536) as u64
}

// The verdict of a check; 0 of an accepted disk.
#[tactic(auto, unfolding(crate::specs::Packed::clipped))]
pub fn pack_verdict(v: Result<(), Refused>) -> u64
    ensures { result ≡ clipped (check_outcome (reply_of v)) }
{
    match v {
        Ok(()) => 0,
        Err(refused) => pack_refused(refused),
    }
}
