// The sectors of a recording that its pieces have written: known by the bits that were free at its opening, and by where each leads.
#![tactic(auto)]

ghost use Rattle.std.specs.Prelude.{◌≡◌, ◌<◌};
ghost use Rattle.chains.specs.File.{sector_at};
ghost use Rattle.recordings.specs.Recording.{leads_to};
ghost use Rattle.recording_links.specs.LinkedSectors.{continuation_along, continuation_in};

use surveys::UsedMap;

// Whether the last two bytes of the sector at bit `b` are the track and the sector of bit `c`.
fn leads_to(image: &[u8], b: usize, c: usize) -> bool
    requires { (b < 1560) × (c < 1560) }
    ensures { result ≡ leads_to (sector_at image.now b) c }
{
    let at = geometry::bit_place(b);
    let link = sector_writes::link_of(c);
    if buffers::byte_at(image, at + 510) != link.track {
        return false;
    }
    buffers::byte_at(image, at + 511) == link.sector
}

// Along the `n` lowest clear bits of a map: the bit of the next sector to be written, 1,560 where there is none; nothing where one of
// their sectors but the first and the last does not lead to the next.
fn continuation_along(image: &[u8], map: &[u8], n: usize) -> Option<usize>
    ensures { result ≡ continuation_along image.now map.now n }
{
    let first = allocation::next_clear(map, 0);
    if 1560 <= first {
        return Some(1560);
    }
    let mut b = allocation::next_clear(map, first + 1);
    for _k in 2..n {
        if 1560 <= b {
            return Some(1560);
        }
        let c = allocation::next_clear(map, b + 1);
        if 1560 <= c {
            return Some(1560);
        }
        if !leads_to(image, b, c) {
            return None;
        }
        b = c;
    }
    Some(b)
}

// The same for a recording of `n` sectors, opened when the used map was `was` and n was `tracks`, on a disk where they now are `used`:
// nothing too where these are not as they were.
pub fn follow(image: &[u8], used: UsedMap, was: &[u8], tracks: usize, n: usize) -> Option<usize>
    ensures { result ≡ continuation_in image.now used was.now tracks n }
{
    if !names::same_bytes(&used.bytes, was) {
        return None;
    }
    if used.tracks != tracks {
        return None;
    }
    let map = allocation::unavailable_bits(used);
    continuation_along(image, &map, n)
}
