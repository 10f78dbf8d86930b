// One slot of the directory: its fields, and rows 2, 4 to 7 and 22 of the table. A slot is 256 bytes; of a shorter
// slice the missing bytes count as 0.
#![tactic(auto)]

ghost use Rattle.std.specs.Prelude.{◌≡◌, ◌+◌, ◌*◌, ◌≤◌, ◌<◌, get_or};
ghost use Rattle.refusals.specs.Answers.{reply_of};
ghost use Rattle.slots.specs.Slot.{is_live, is_nameless, hidden, protected, kind_of, known, carried, spectrum, readable, is_directory, code_of, parent_of, name_of, is_named, count_of, first_of, map_of, page_of, offset_of, pages_of, remainder_of, slot_fields, length_of};
ghost use Rattle.slots.specs.Tracks.{data_count, inner_map, in_directory, clear_at, past_first};
ghost use Rattle.slots.specs.Rows.{directory_reply, file_reply_by, own_reply_by, wasteful};

use refusals::{Reason, Refused, refuse};

pub fn is_live(s: &[u8]) -> bool
    ensures { result ≡ is_live s.now }
{
    buffers::byte_at(s, 0) != 0
}

// Whether the first name byte is 0: a slot that was never used.
pub fn is_nameless(s: &[u8]) -> bool
    ensures { result ≡ is_nameless s.now }
{
    buffers::byte_at(s, 1) == 0
}

pub fn is_hidden(s: &[u8]) -> bool
    ensures { result ≡ hidden s.now }
{
    buffers::byte_at(s, 0) / 128 % 2 == 1
}

pub fn is_protected(s: &[u8]) -> bool
    ensures { result ≡ protected s.now }
{
    buffers::byte_at(s, 0) / 64 % 2 == 1
}

pub fn kind_of(s: &[u8]) -> usize
    ensures { (result ≡ kind_of s.now) × (result < 64) }
{
    buffers::num_at(s, 0) % 64
}

#[tactic(auto, unfolding(crate::specs::Slot::known))]
pub fn is_known(kind: usize) -> bool
    ensures { result ≡ known kind }
{
    1 <= kind && kind <= 12 || 16 <= kind && kind <= 23
}

#[tactic(auto, unfolding(crate::specs::Slot::carried))]
pub fn is_carried(kind: usize) -> bool
    ensures { result ≡ carried kind }
{
    16 <= kind && kind <= 20
}

// Whether a kind is one of the Spectrum's.
#[tactic(auto, unfolding(crate::specs::Slot::spectrum))]
pub fn is_spectrum(kind: usize) -> bool
    ensures { result ≡ spectrum kind }
{
    1 <= kind && kind <= 4
}

// Whether a body of this kind can be read.
#[tactic(auto, unfolding(crate::specs::Slot::readable))]
pub fn is_readable(kind: usize) -> bool
    ensures { result ≡ readable kind }
{
    is_carried(kind) || is_spectrum(kind)
}

// Whether a slot is a directory.
#[tactic(auto, unfolding(crate::specs::Slot::is_directory, crate::specs::Slot::directory_kind))]
pub fn is_directory(s: &[u8]) -> bool
    ensures { result ≡ is_directory s.now }
{
    kind_of(s) == 21
}

// The code of a directory.
pub fn code_of(s: &[u8]) -> usize
    ensures { (result ≡ code_of s.now) × (result < 256) }
{
    buffers::num_at(s, 250)
}

// The code of the directory that a slot is in; 0 for the root.
pub fn parent_of(s: &[u8]) -> usize
    ensures { (result ≡ parent_of s.now) × (result < 256) }
{
    buffers::num_at(s, 254)
}

pub fn name_of(s: &[u8]) -> &[u8]
    ensures { result.now ≡ name_of s.now }
{
    buffers::part_at(s, 1, 10)
}

// Whether a slot is live and has that name.
#[tactic(auto, unfolding(crate::specs::Slot::is_named))]
pub fn is_named(s: &[u8], name: &[u8]) -> bool
    ensures { result ≡ is_named s.now name.now }
{
    is_live(s) && names::same_name(name_of(s), name)
}

// The one number with its high byte first, so not by `two_at`.
pub fn count_of(s: &[u8]) -> usize
    ensures { (result ≡ count_of s.now) × (result ≤ 65535) }
{
    buffers::num_at(s, 11) * 256 + buffers::num_at(s, 12)
}

// Two bytes of any place as one number, low byte first.
#[tactic(auto, using(buffers::proofs::Lists::past_end))]
pub fn two_at(s: &[u8], i: usize) -> usize
    ensures { (result ≡ get_or s.now i 0 + 256 * get_or s.now (i + 1) 0) × (result ≤ 65535) }
{
    let high = if i < s.len() {
        buffers::byte_at(s, i + 1)
    } else {
        0
    };
    usize::from(u16::from_le_bytes([buffers::byte_at(s, i), high]))
}

// The first sector as a map bit: 1,560 where the slot names no data sector. A number and no Option, as the definition has it: no map
// has that bit.
pub fn first_of(s: &[u8]) -> usize
    ensures { (result ≡ first_of s.now) × (result ≤ 1560) }
{
    geometry::bit_or_end(buffers::num_at(s, 13), buffers::num_at(s, 14))
}

pub fn map_of(s: &[u8]) -> &[u8]
    ensures { result.now ≡ map_of s.now }
{
    buffers::part_at(s, 15, maps::MAP_BYTES)
}

pub fn page_of(s: &[u8]) -> usize
    ensures { (result ≡ page_of s.now) × (result < 32) }
{
    buffers::num_at(s, 236) % 32
}

pub fn offset_of(s: &[u8]) -> usize
    ensures { (result ≡ offset_of s.now) × (result ≤ 65535) }
{
    two_at(s, 237)
}

pub fn pages_of(s: &[u8]) -> usize
    ensures { (result ≡ pages_of s.now) × (result < 256) }
{
    buffers::num_at(s, 239)
}

pub fn remainder_of(s: &[u8]) -> usize
    ensures { (result ≡ remainder_of s.now) × (result < 16384) }
{
    two_at(s, 240) % 16384
}

// The length of a carried kind's body, as the slot has it.
#[tactic(auto, unfolding(crate::specs::Slot::length_of, crate::specs::Slot::slot_fields))]
pub fn length_of(s: &[u8]) -> usize
    ensures { (result ≡ length_of (slot_fields s.now)) × (result < 4194304) }
{
    pages_of(s) * 16384 + remainder_of(s)
}

// The number of data sectors with so many directory tracks beyond four.
#[tactic(auto, unfolding(crate::specs::Tracks::data_count))]
pub fn data_count(tracks: usize) -> usize
    ensures { (result ≡ data_count tracks) × (result ≤ 1560) }
{
    if tracks == 0 {
        return geometry::DATA_SECTORS;
    }
    if 156 < tracks {
        return 0;
    }
    1561 - 10 * tracks
}

// Whether the 64 bits of a map from `b` on are clear, `b` is the first of a byte, and the map has them all.
#[tactic(auto, unfolding(crate::specs::Tracks::clear_at))]
fn is_clear(map: &[u8], b: usize) -> bool
    ensures { result ≡ clear_at map.now b }
{
    b % 8 == 0 && b / 8 + 8 <= map.len() && buffers::word_at(map, b / 8) == 0
}

// A bit from 1 on before which none but bit 0 is set: past the first eight bytes where they are there and have no other.
#[tactic(auto, unfolding(crate::specs::Tracks::past_first))]
fn past_first(map: &[u8]) -> usize
    ensures { result ≡ past_first map.now }
{
    if 8 <= map.len() && buffers::word_at(map, 0) <= 1 {
        64
    } else {
        1
    }
}

// Whether a map has a bit inside the directory, with so many tracks beyond four. Of eight bytes that are clear no bit is looked
// at.
pub fn is_inside(map: &[u8], tracks: usize) -> bool
    ensures { result ≡ in_directory tracks map.now }
{
    let end = 10 * tracks.min(156);
    let mut b = past_first(map);
    // A `while` is plainer here than a `for`: it goes on by 64 bits or by one.
    while b < end {
        if is_clear(map, b) {
            b += 64;
        } else if maps::has_bit(map, b) {
            return true;
        } else {
            b += 1;
        }
    }
    false
}

// The map of the bits inside the directory, with so many tracks beyond four: those of tracks 4 on, but the first.
pub fn inner_map(tracks: usize) -> [u8; 195]
    ensures { result ≡ inner_map tracks }
{
    let end = 10 * tracks.min(156);
    let mut map = [0u8; 195];
    for b in 1..end {
        maps::set_bit(&mut map, b);
    }
    map
}

// Rows 4 and 5 at a directory's slot.
#[tactic(auto, unfolding(crate::specs::Rows::directory_reply, crate::specs::Slot::slot_fields))]
fn directory_rows(s: &[u8], slot: usize) -> Result<(), Refused>
    ensures { reply_of result ≡ directory_reply slot s.now }
{
    if count_of(s) != 0 {
        return refuse(Reason::CountOutOfRange, slot);
    }
    if maps::bits_of(map_of(s)) != 0 {
        return refuse(Reason::BitsDiffer, slot);
    }
    Ok(())
}

// Rows 2 and 4 to 7 at the slot of any other file.
#[tactic(auto, unfolding(crate::specs::Rows::file_reply_by, crate::specs::Slot::slot_fields))]
fn file_rows(s: &[u8], slot: usize, most: usize, inside: bool) -> Result<(), Refused>
    ensures { reply_of result ≡ file_reply_by most inside slot s.now }
{
    let kind = kind_of(s);
    if !is_known(kind) {
        return refuse(Reason::KindUnknown, slot);
    }
    let count = count_of(s);
    if count < 1 || most < count {
        return refuse(Reason::CountOutOfRange, slot);
    }
    let map = map_of(s);
    if maps::bits_of(map) != count {
        return refuse(Reason::BitsDiffer, slot);
    }
    if !maps::has_bit(map, first_of(s)) || inside {
        return refuse(Reason::FirstNotOwn, slot);
    }
    if is_carried(kind) && 510 * count < 9 + length_of(s) {
        return refuse(Reason::LengthTooGreat, slot);
    }
    Ok(())
}

// Rows 2 and 4 to 7 at a live slot: `most` is the number of data sectors, and `inside` says whether its map has a bit inside
// the directory.
#[tactic(auto, unfolding(crate::specs::Rows::own_reply_by, crate::specs::Rows::directory_reply, crate::specs::Rows::file_reply_by, crate::specs::Slot::slot_fields, crate::specs::Slot::is_directory))]
pub fn own_rows(s: &[u8], slot: usize, most: usize, inside: bool) -> Result<(), Refused>
    ensures { reply_of result ≡ own_reply_by most inside slot s.now }
{
    if is_directory(s) {
        return directory_rows(s, slot);
    }
    file_rows(s, slot, most, inside)
}

// Row 22, which the release check alone asks for: a carried kind, and more sectors than its length needs.
#[tactic(auto, unfolding(crate::specs::Rows::wasteful, crate::specs::Slot::slot_fields, crate::specs::Slot::sectors_for))]
pub fn is_wasteful(s: &[u8]) -> bool
    ensures { result ≡ wasteful (slot_fields s.now) }
{
    is_carried(kind_of(s)) && (length_of(s) + 518) / 510 < count_of(s)
}
