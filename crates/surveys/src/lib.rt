// The pass over rows 2 to 9 of the directory, with 22 for the release check, and the used map. It goes by the directory's bytes
// alone, and answers for a slice of any length.
#![tactic(auto)]

ghost use Rattle.std.specs.Prelude.{◌≡◌, ◌≤◌, ◌<◌};
ghost use Rattle.maps.specs.Bits.{clear_map, join};
ghost use Rattle.refusals.specs.Order.{rows};
ghost use Rattle.refusals.specs.Answers.{reply_of};
ghost use Rattle.names.specs.Name.{same_name};
ghost use Rattle.slots.specs.Slot.{name_of, slot_fields};
ghost use Rattle.slots.specs.Rows.{own_reply, release_rows};
ghost use Rattle.directory.specs.Directory.{tracks_of, slots_read, directory};
ghost use Rattle.surveys.specs.Survey.{earlier, survey_at, survey_by, counted, free_of};
ghost use Rattle.surveys.specs.Filter.{key_bits, may_contain, inserted, Filtered};
ghost use Rattle.surveys.specs.Steps.{DisjointMaps, Reached, Surveyed};

use refusals::{Reason, Refused};

// The used map: 195 map bytes together with their number of set bits, and the number of directory tracks beyond four.
#[derive(Clone, Copy)]
pub struct UsedMap {
    pub bytes: [u8; 195],
    pub count: usize,
    pub tracks: usize,
}

// What the pass over rows 2 to 9 gives of a directory that it does not refuse: the used map and how many slots are live.
#[derive(Clone, Copy)]
pub struct Survey {
    pub used: UsedMap,
    pub files: usize,
}

// The bytes of the filter of row 9, its bits, and how many of them a key has.
const FILTER_BYTES: usize = 1024;

const FILTER_BITS: usize = 8192;

const KEY_BITS: usize = 4;

// The bits of a key: the first, and each of the others as far from the one before.
#[tactic(auto, unfolding(crate::specs::Filter::key_bit, crate::specs::Filter::key_step))]
fn key_bits(key: u64) -> [usize; KEY_BITS]
    ensures { result ≡ key_bits key }
{
    let step = (key % 7741) as usize;
    let first = (key % 8147) as usize;
    let second = (first + step) % FILTER_BITS;
    let third = (second + step) % FILTER_BITS;
    [first, second, third, (third + step) % FILTER_BITS]
}

// Whether the filter has all bits of a key.
fn may_contain(filter: &[u8], key: u64) -> bool
    ensures { result ≡ may_contain filter.now key }
{
    let bits = key_bits(key);
    for b in bits {
        if !maps::has_bit(filter, b) {
            return false;
        }
    }
    true
}

// Sets the bits of a key in the filter.
fn insert(filter: &mut [u8], key: u64)
    ensures { filter.new ≡ inserted filter.old key }
{
    let bits = key_bits(key);
    for b in bits {
        maps::set_bit(filter, b);
    }
}

// Whether a live slot before slot `i` has that name. The slots are looked at only where the filter has all bits of the name's
// key, and only a name with the same key is compared.
fn named_before(dir: &[u8], i: usize, name: &[u8], filter: &[u8]) -> bool
    requires { (i ≤ slots_read dir.now) × Filtered dir.now i filter.now }
    ensures { result ≡ earlier (directory dir.now) i (λ t. same_name (name_of t) name.now) }
{
    let key = names::key_of(name);
    if !may_contain(filter, key) {
        return false;
    }
    for j in 0..i {
        let s = directory::slot_at(dir, j);
        if names::key_of(slots::name_of(s)) == key && slots::is_named(s, name) {
            return true;
        }
    }
    false
}

// Rows 2 and 4 to 7 at a live slot.
fn own_at(s: &[u8], slot: usize, tracks: usize) -> Result<(), Refused>
    ensures { reply_of result ≡ own_reply tracks slot s.now }
{
    let inside = slots::is_inside(slots::map_of(s), tracks);
    slots::own_rows(s, slot, slots::data_count(tracks), inside)
}

// Row 22 at a live slot, where `release` asks for it.
fn waste_at(s: &[u8], slot: usize, release: bool) -> Result<(), Refused>
    ensures { reply_of result ≡ rows slot (release_rows release (slot_fields s.now)) }
{
    if release && slots::is_wasteful(s) {
        return refusals::refuse(Reason::WasteSectors, slot);
    }
    Ok(())
}

// Rows 2 to 9 at the live slot `i`, whose bytes are `s`, and 22 after 7 where `release` asks for it; `used` is the used map
// of the slots before it, and `filter` has the bits of their names.
fn live_rows(
    dir: &[u8],
    i: usize,
    s: &[u8],
    used: &[u8],
    filter: &[u8],
    release: bool,
    tracks: usize,
) -> Result<(), Refused>
    requires { Reached dir.now i s.now used.now filter.now }
    ensures { reply_of result ≡ survey_at release tracks (directory dir.now) i }
{
    let slot = i + 1;
    own_at(s, slot, tracks)?;
    waste_at(s, slot, release)?;
    if maps::shares(used, slots::map_of(s)) {
        return refusals::refuse(Reason::SectorShared, slot);
    }
    if named_before(dir, i, slots::name_of(s), filter) {
        return refusals::refuse(Reason::NameTwice, slot);
    }
    Ok(())
}

// The used map of no slot.
fn unused(tracks: usize) -> UsedMap
    ensures { result ≡ counted tracks clear_map }
{
    UsedMap {
        bytes: [0; 195],
        count: 0,
        tracks,
    }
}

// Joins one more map to the used map, which has no bit of it yet; `own` is that map's number of set bits, counted before.
fn join(used: &mut UsedMap, map: &[u8], own: usize)
    requires { DisjointMaps used.old map.now own }
    ensures { used.new ≡ counted used.old.tracks (join used.old.bytes map.now) }
{
    maps::join_into(&mut used.bytes, map);
    used.count += own;
}

// Rows 2 to 9 at all slots, with 22 where `release` asks for it, the used map, and how many slots are live.
pub fn survey_slots(dir: &[u8], release: bool) -> Result<Survey, Refused>
    ensures { Surveyed (survey_by release (tracks_of dir.now) (directory dir.now)) dir.now result }
{
    let tracks = directory::tracks_of(dir);
    let mut used = unused(tracks);
    let mut filter = [0u8; FILTER_BYTES];
    let mut files: usize = 0;
    for i in 0..directory::slots_read(dir) {
        let s = directory::slot_at(dir, i);
        if slots::is_live(s) {
            live_rows(dir, i, s, &used.bytes, &filter, release, tracks)?;
            insert(&mut filter, names::key_of(slots::name_of(s)));
            files += 1;
            join(&mut used, slots::map_of(s), slots::count_of(s));
        }
    }
    Ok(Survey { used, files })
}

// The sectors that a used map leaves free: 0 where its count is no map's.
#[tactic(auto, unfolding(crate::specs::Survey::free_of))]
pub fn free_of(used: UsedMap) -> usize
    ensures { result ≡ free_of used }
{
    slots::data_count(used.tracks).saturating_sub(used.count)
}
