// The data sectors of a file: the header in front of its body, the link to a sector, and a sector with its payload and its link.
#![tactic(auto)]

ghost use Rattle.std.specs.Prelude.{◌≡◌, ◌++◌, ◌∷◌, [], ◌/◌, ◌≤◌};
ghost use Rattle.buffers.specs.Bytes.{put};
ghost use Rattle.geometry.specs.Disk.{place_or_end};
ghost use Rattle.plans.specs.Saving.{sector_bytes};
ghost use Rattle.sector_writes.specs.Sector.{header, bytes_from, link_to_bit};

use allocation::HeaderFields;

// The last two bytes of a data sector: where the next one is.
#[derive(Clone, Copy, Debug, PartialEq, Eq)]
pub struct Link {
    pub track: u8,
    pub sector: u8,
}

// The nine bytes in front of a body of `len` bytes.
#[tactic(auto, unfolding(crate::specs::Sector::header))]
pub fn header_of(start: HeaderFields, len: usize) -> [u8; 9]
    ensures { result ≡ header start len }
{
    let rest = ((len % 16384) as u16).to_le_bytes();
    let offset = ((start.offset % 65536) as u16).to_le_bytes();
    [
        (start.kind % 256) as u8,
        rest[0],
        rest[1],
        offset[0],
        offset[1],
        0,
        0,
        (len / 16384 % 256) as u8,
        (start.page % 256) as u8,
    ]
}

// The link to the sector of a map bit; to no sector where it is none.
#[tactic(auto, using(crate::proofs::Links::link_small, crate::proofs::Links::link_some, crate::proofs::Links::link_none))]
pub fn link_of(bit: usize) -> Link
    ensures { result ≡ link_to_bit bit }
{
    match geometry::address_of(bit) {
        Some(a) => Link {
            track: a.track as u8,
            sector: a.sector as u8,
        },
        None => Link {
            track: 0,
            sector: 0,
        },
    }
}

// The number of the sector of a map bit; 1,600, the number of no sector, where there is no such bit.
#[tactic(auto, using(crate::proofs::Links::end_le))]
pub fn sector_number(bit: usize) -> u16
    ensures { result ≡ place_or_end bit / 512 }
{
    (geometry::bit_place(bit) / 512) as u16
}

// Puts `n` bytes of a list from a place on, and 0 for each past its end.
fn write_run(image: &mut [u8], at: usize, body: &[u8], from: usize, n: usize)
    requires { (at ≤ 819710) × (n ≤ 510) }
    ensures { image.new ≡ put image.old at (bytes_from body.now from n) }
{
    let there = buffers::part_at(body, from, n);
    let len = there.len();
    buffers::copy_into(image, at, there);
    if len < n {
        let zeros = [0u8; 510];
        buffers::copy_into(image, at + len, &zeros[..n - len]);
    }
}

// Puts a payload: 510 bytes, from a place on, of two lists one after the other.
fn write_payload(image: &mut [u8], at: usize, front: &[u8], back: &[u8], from: usize)
    requires { at ≤ 819200 }
    ensures { image.new ≡ put image.old at (bytes_from (front.now ++ back.now) from 510) }
{
    let len = front.len();
    if len <= from {
        write_run(image, at, back, from - len, 510);
    } else {
        let there = buffers::part_at(front, from, 510);
        let n = there.len();
        buffers::copy_into(image, at, there);
        write_run(image, at + n, back, 0, 510 - n);
    }
}

// Puts a link at a place. Byte by byte: two bytes laid down one after the other and read back as a pair would make the machine wait.
#[tactic(auto, using(crate::proofs::Runs::link_put))]
fn write_link(image: &mut [u8], at: usize, link: Link)
    requires { at ≤ 819710 }
    ensures { image.new ≡ put image.old at (link.track ∷ link.sector ∷ []) }
{
    buffers::copy_into(image, at, &[link.track]);
    buffers::copy_into(image, at + 1, &[link.sector]);
}

// Writes the sector of a map bit: as payload the 510 bytes from a place on of two lists one after the other, 0 past their end;
// and then a link.
#[tactic(auto, using(crate::proofs::Links::end_le))]
pub fn write_sector(
    image: &mut [u8],
    bit: usize,
    front: &[u8],
    back: &[u8],
    from: usize,
    link: Link,
)
    ensures { image.new ≡ put image.old (place_or_end bit) (sector_bytes (front.now ++ back.now) from link.track link.sector) }
{
    let at = geometry::bit_place(bit);
    write_payload(image, at, front, back, from);
    write_link(image, at + 510, link);
}
