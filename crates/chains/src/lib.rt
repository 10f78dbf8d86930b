// The chain of a file: row 10 of the table at one slot.
#![tactic(auto)]

ghost use Rattle.std.specs.Prelude.{◌≡◌, ◌<◌};
ghost use Rattle.geometry.specs.Disk.{bit_of, place_or_end};
ghost use Rattle.slots.specs.Slot.{first_of, slot_fields};
ghost use Rattle.chains.specs.File.{sectors_of};
ghost use Rattle.chains.specs.Chain.{is_last, broken};

// The place of a slot's first sector, from its address, with no division by 10.
pub fn first_place(s: &[u8]) -> usize
    ensures { result ≡ place_or_end (first_of s.now) }
{
    geometry::data_place(buffers::num_at(s, 13), buffers::num_at(s, 14))
}

// Whether a sector's link is 0, 0.
#[tactic(auto, unfolding(crate::specs::Chain::is_last))]
fn is_last(sector: &[u8]) -> bool
    ensures { result ≡ is_last sector.now }
{
    buffers::byte_at(sector, 510) == 0 && buffers::byte_at(sector, 511) == 0
}

// The place of a link's sector, bit `next`, where the sector that has the link is bit `bit` and lies at `at`. Most links lead
// to the next sector of the track, whose place does not hang on the link: the walk can run ahead of what it reads.
#[tactic(auto, using(crate::proofs::ChainLoop::beside, geometry::proofs::Laws::place_or_end_lem, geometry::proofs::Laws::place_inside))]
fn place_after(bit: usize, at: usize, next: usize, track: usize, number: usize) -> usize
    requires { (bit < 1560) × (at ≡ place_or_end bit) × (next < 1560) × (next ≡ bit_of track number) }
    ensures { result ≡ place_or_end next }
{
    if next == bit + 1 && number != 1 {
        return at + 512;
    }
    geometry::data_place(track, number)
}

// Row 10: whether the chain is broken. The sectors passed are marked in a map, and a link to a marked one is refused there.
// No link waits for a mark: the place of the next sector does not hang on the map.
pub fn chain_broken(image: &[u8], s: &[u8]) -> bool
    ensures { result ≡ broken (slot_fields s.now) (sectors_of image.now s.now) }
{
    let map = slots::map_of(s);
    let mut bit = slots::first_of(s);
    if !maps::has_bit(map, bit) {
        return true;
    }
    let mut at = first_place(s);
    let mut passed = [0u8; 195];
    maps::set_bit(&mut passed, bit);
    for _ in 1..slots::count_of(s) {
        let track = buffers::num_at(image, at + 510);
        let number = buffers::num_at(image, at + 511);
        let next = geometry::bit_or_end(track, number);
        if !maps::has_bit(map, next) {
            return true;
        }
        if maps::has_bit(&passed, next) {
            return true;
        }
        maps::set_bit(&mut passed, next);
        at = place_after(bit, at, next, track, number);
        bit = next;
    }
    !is_last(buffers::part_at(image, at, 512))
}
