// The directory's part of a save: the slot that it writes, the old name behind the directory's end, and the sectors that it names.
#![tactic(auto)]

ghost use Rattle.std.specs.Prelude.{◌≡◌, true, not, ◌&&◌, ◌∷◌, [], suc, ◌≤◌, ◌<◌, length};
ghost use Rattle.buffers.specs.Bytes.{put};
ghost use Rattle.directory.specs.Places.{slots};
ghost use Rattle.plans.specs.Saving.{map_with};
ghost use Rattle.plans.specs.Plan.{old_name, same_sector, without_next_name};
ghost use Rattle.slot_writes.specs.Filed.{chain_bytes, start_fields, fresh_slot, kept_slot, slot_of, has_next_name, directory_sectors, slot_written};

use allocation::HeaderFields;
use sector_writes::Link;

// What a save is asked for, but for its body: the kind and the start, the name, the execution bytes and the kind's information.
#[derive(Clone, Copy)]
pub struct Particulars<'a> {
    pub start: HeaderFields,
    pub name: &'a [u8],
    pub exec: &'a [u8],
    pub info: &'a [u8],
}

// The last slot of the largest directory, counted from 0.
const LAST_SLOT: usize = directory::SLOTS - 1;

// The map with the bits of a chain set.
pub fn map_with(bits: &[u16]) -> [u8; 195]
    ensures { result ≡ map_with bits.now }
{
    let mut map = [0u8; 195];
    for j in (0..bits.len()).rev() {
        maps::set_bit(&mut map, usize::from(bits[j]));
    }
    map
}

// Bytes 11 to 14 of a slot: the count of a chain, high byte first, and its first track and sector.
#[tactic(auto, unfolding(crate::specs::Filed::chain_bytes))]
fn chain_bytes(count: usize, first: Link) -> [u8; 4]
    ensures { result ≡ chain_bytes count first }
{
    [
        (count / 256 % 256) as u8,
        (count % 256) as u8,
        first.track,
        first.sector,
    ]
}

// Bytes 236 to 241 of a slot: where a file of `len` bytes is loaded, and that length.
#[tactic(auto, unfolding(crate::specs::Filed::start_fields))]
fn span_of(start: HeaderFields, len: usize) -> [u8; 6]
    ensures { result ≡ start_fields start len }
{
    let rest = len % 16384;
    [
        (start.page % 256) as u8,
        (start.offset % 256) as u8,
        (start.offset / 256 % 256) as u8,
        (len / 16384 % 256) as u8,
        (rest % 256) as u8,
        (rest / 256) as u8,
    ]
}

// The slot of a file of `len` bytes in a chain of `count` sectors, of which `first` is the first and `map` the map.
fn fresh_slot(what: &Particulars, len: usize, count: usize, first: Link, map: &[u8]) -> [u8; 256]
    ensures { result ≡ fresh_slot what.now.start what.now.name.now what.now.exec.now what.now.info.now len count first map.now }
{
    let mut slot = [0u8; 256];
    slot[0] = (what.start.kind % 256) as u8;
    let filled = names::padded_name(what.name);
    buffers::copy_into(&mut slot, 1, &filled);
    let chain = chain_bytes(count, first);
    buffers::copy_into(&mut slot, 11, &chain);
    buffers::copy_into(&mut slot, 15, buffers::part_at(map, 0, 195));
    buffers::copy_into(&mut slot, 221, buffers::part_at(what.info, 0, 11));
    let span = span_of(what.start, len);
    buffers::copy_into(&mut slot, 236, &span);
    buffers::copy_into(&mut slot, 242, buffers::part_at(what.exec, 0, 3));
    // no date
    slot[245] = 255;
    slot
}

// A slot as it is written at slot `i`: slot 1 keeps the bytes that are the disk's.
fn kept_slot(image: &[u8], i: usize, fresh: [u8; 256]) -> [u8; 256]
    requires { length fresh ≡ 256 }
    ensures { result ≡ kept_slot image.now i fresh }
{
    if i != 0 {
        return fresh;
    }
    let mut slot = fresh;
    buffers::copy_into(&mut slot, 210, buffers::part_at(image, 210, 10));
    buffers::copy_into(&mut slot, 252, buffers::part_at(image, 252, 2));
    buffers::copy_into(&mut slot, 255, buffers::part_at(image, 255, 1));
    slot
}

// The slot that is written at slot `i`, counted from 0, for a file of `len` bytes in a chain of `count` sectors, of which `first` is
// the first and `map` the map.
#[tactic(auto, unfolding(crate::specs::Filed::slot_of))]
pub fn slot_of(
    image: &[u8],
    i: usize,
    what: &Particulars,
    len: usize,
    count: usize,
    first: Link,
    map: &[u8],
) -> [u8; 256]
    ensures { result ≡ slot_of image.now i what.now.start what.now.name.now what.now.exec.now what.now.info.now len count first map.now }
{
    let fresh = fresh_slot(what, len, count, first, map);
    kept_slot(image, i, fresh)
}

// Whether slot `i`, counted from 0, has no name, and a next slot exists that has one.
pub fn has_old_name(image: &[u8], i: usize) -> bool
    ensures { result ≡ old_name image.now i }
{
    i < LAST_SLOT
        && slots::is_nameless(directory::slot_at(image, i))
        && i + 1 < directory::slots_in(image)
        && !slots::is_nameless(directory::slot_at(image, i + 1))
}

// Whether an old name stands behind slot `i`: behind the last there is none.
fn is_behind(i: usize, old: bool) -> bool
    ensures { result ≡ has_next_name old i }
{
    i < LAST_SLOT && old
}

// Sets bytes 0 and 1 of the slot after slot `i` to 0, where an old name stands there.
fn clear_next(image: &mut [u8], i: usize, old: bool)
    requires { old ≡ true → suc i < slots }
    ensures { image.new ≡ without_next_name old i image.old }
{
    if old {
        let zeros = [0u8; 2];
        buffers::copy_into(image, directory::slot_place(i + 1), &zeros);
    }
}

// Writes slot `i`, counted from 0, and before it clears the old name behind it, where one stands there.
pub fn put_slot(image: &mut [u8], i: usize, old: bool, slot: &[u8])
    ensures { image.new ≡ slot_written old i slot.now image.old }
{
    if directory::SLOTS <= i {
        return;
    }
    clear_next(image, i, is_behind(i, old));
    buffers::copy_into(image, directory::slot_place(i), slot);
}

// Whether the sector of the slot after slot `i` is written too: an old name stands there, and it is another sector.
fn is_apart(i: usize, old: bool) -> bool
    requires { i < slots }
    ensures { result ≡ (old && not (same_sector i)) }
{
    old && directory::dir_sector(i + 1) != directory::dir_sector(i)
}

// How many sectors of the directory are written for slot `i`.
pub fn dir_count(i: usize, old: bool) -> usize
    ensures { (result ≡ length (directory_sectors old i)) × (result ≤ 2) }
{
    if directory::SLOTS <= i {
        return 0;
    }
    if is_apart(i, is_behind(i, old)) {
        return 2;
    }
    1
}

// Puts the numbers of the directory's sectors, in the order of writing, from a place of the list on, as many as it has room for.
pub fn put_dirs(list: &mut [u16], at: usize, i: usize, old: bool)
    ensures { list.new ≡ put list.old at (directory_sectors old i) }
{
    if list.len() <= at {
        return;
    }
    if directory::SLOTS <= i {
        return;
    }
    if is_apart(i, is_behind(i, old)) {
        buffers::put_number(list, at, directory::dir_sector(i + 1) as u16);
        buffers::put_number(list, at + 1, directory::dir_sector(i) as u16);
        return;
    }
    buffers::put_number(list, at, directory::dir_sector(i) as u16);
}
