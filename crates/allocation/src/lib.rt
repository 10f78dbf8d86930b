// What a save takes: the lowest slot that holds no file, or what is refused before; and the lowest free map bits.
#![tactic(auto)]

ghost use Rattle.std.specs.Prelude.{◌≡◌};
ghost use Rattle.buffers.specs.Bytes.{put};
ghost use Rattle.refusals.specs.Answers.{reply_of};
ghost use Rattle.directory.specs.Directory.{tracks_of, directory};
ghost use Rattle.directory.specs.Find.{found_at};
ghost use Rattle.files.specs.Calls.{lookup_of};
ghost use Rattle.plans.specs.Saving.{lowest_slot};
ghost use Rattle.allocation.specs.Taken.{request_reply, slot_for_save, unavailable_map, lowest_clear_bits, full_byte, next_clear};

use refusals::{Reason, Refused, refuse};
use surveys::UsedMap;

// The kind of a file, and where it is loaded.
#[derive(Clone, Copy, Debug, PartialEq, Eq)]
pub struct HeaderFields {
    pub kind: usize,
    pub page: usize,
    pub offset: usize,
}

// Rows 12, 13 and 14, which go by the arguments alone.
#[tactic(auto, unfolding(crate::specs::Taken::request_reply))]
fn asked_rows(start: HeaderFields, name: &[u8]) -> Result<(), Refused>
    ensures { reply_of result ≡ request_reply start name.now }
{
    if !changes::is_usable(name) {
        return refuse(Reason::NameNotUsable, 0);
    }
    if !slots::is_carried(start.kind) {
        return refuse(Reason::WrongKind, 0);
    }
    if 31 < start.page || start.offset < 32768 || 49151 < start.offset {
        return refuse(Reason::StartOutOfRange, 0);
    }
    Ok(())
}

// The lowest slot that holds no file: one that is read and erased, else the end of the directory.
fn free_slot(image: &[u8]) -> Option<usize>
    ensures { found_at result ≡ lowest_slot (tracks_of image.now) (directory image.now) }
{
    let end = directory::slots_read(image);
    for i in 0..end {
        if !slots::is_live(directory::slot_at(image, i)) {
            return Some(i);
        }
    }
    if end < directory::slots_in(image) {
        return Some(end);
    }
    None
}

// The slot that a save takes, counted from 0; or what is refused before: 12, 13, 14, 16, 18.
pub fn slot_for(image: &[u8], start: HeaderFields, name: &[u8]) -> Result<usize, Refused>
    ensures { lookup_of result ≡ slot_for_save image.now start name.now }
{
    asked_rows(start, name)?;
    if let Some(i) = directory::find(image, name) {
        return refuse(Reason::NameTaken, i + 1);
    }
    match free_slot(image) {
        Some(i) => Ok(i),
        None => refuse(Reason::NoFreeSlot, 0),
    }
}

// The bits that a save cannot take: those of the used map, and those inside the directory.
#[tactic(auto, unfolding(crate::specs::Taken::unavailable_map))]
pub fn unavailable_bits(used: UsedMap) -> [u8; 195]
    ensures { result ≡ unavailable_map used }
{
    let mut map = slots::inner_map(used.tracks);
    maps::join_into(&mut map, &used.bytes);
    map
}

// Whether all eight bits of a map from `b` on are set, and `b` is the first of a byte.
#[tactic(auto, unfolding(crate::specs::Taken::full_byte))]
fn is_full(map: &[u8], b: usize) -> bool
    ensures { result ≡ full_byte map.now b }
{
    b % 8 == 0 && buffers::byte_at(map, b / 8) == 255
}

// Puts the `n` lowest clear bits of a map to the front of a list, as many as it has room for. Of a byte that is full no bit
// is looked at.
#[tactic(auto, using(crate::proofs::Picked::picked_none, crate::proofs::Picked::picked_full, crate::proofs::Picked::picked_set, crate::proofs::Picked::picked_clear))]
pub fn pick_bits(map: &[u8], n: usize, list: &mut [u16])
    ensures { list.new ≡ put list.old 0 (lowest_clear_bits map.now n) }
{
    let room = n.min(list.len());
    let mut j: usize = 0;
    let mut b: usize = 0;
    // Not `for`: a byte that is full is passed in one step.
    while b < 1560 && j < room {
        if !maps::has_bit(map, b) {
            list[j] = b as u16;
            j += 1;
            b += 1;
        } else if is_full(map, b) {
            b += 8;
        } else {
            b += 1;
        }
    }
}

// The lowest clear bit of a map that is not below `from`; 1,560 where there is none.
#[tactic(auto, using(crate::proofs::Next::passed_full, crate::proofs::Next::passed_set, crate::proofs::Next::passed_clear, crate::proofs::Next::passed_all))]
pub fn next_clear(map: &[u8], from: usize) -> usize
    ensures { result ≡ next_clear map.now from }
{
    let mut b = from;
    // Not `for`: a byte that is full is passed in one step.
    while b < 1560 {
        if is_full(map, b) {
            b += 8;
        } else if maps::has_bit(map, b) {
            b += 1;
        } else {
            return b;
        }
    }
    1560
}
