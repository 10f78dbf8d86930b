// The lowest run of clear bits of a map, found in one pass.
#![tactic(auto)]

ghost use Rattle.std.specs.Prelude.{◌≡◌};
ghost use Rattle.directory.specs.Find.{found_at};
ghost use Rattle.free_runs.specs.Runs.{stretch, lowest_clear};

// How many bits of a map from `b` on are surely alike: eight where a byte begins there that is full or empty, else one.
#[tactic(auto, unfolding(crate::specs::Runs::stretch))]
fn stretch_at(map: &[u8], b: usize) -> usize
    ensures { result ≡ stretch map.now b }
{
    let byte = buffers::byte_at(map, b / 8);
    if b % 8 == 0 && (byte == 0 || byte == 255) {
        8
    } else {
        1
    }
}

// The first of the lowest `count` clear bits of a map that are consecutive, in one pass: `len` is how many before `b` are clear.
#[tactic(auto, using(crate::proofs::Pass::alike, crate::proofs::Pass::trail_zero, crate::proofs::Pass::trail_start, crate::proofs::Pass::trail_found))]
pub fn find_run(map: &[u8], count: usize) -> Option<usize>
    ensures { found_at result ≡ lowest_clear map.now count }
{
    if count == 0 {
        return Some(0);
    }
    let mut len: usize = 0;
    let mut b: usize = 0;
    // Not `for`: a byte whose bits are alike is passed in one step.
    while b < 1560 {
        let k = stretch_at(map, b);
        let is_set = maps::has_bit(map, b);
        b += k;
        if is_set {
            len = 0;
        } else {
            len += k;
            if count <= len {
                return Some(b - len);
            }
        }
    }
    None
}
