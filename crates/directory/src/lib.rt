// The directory: where its slots lie, how many of them are read, and a slot by its name. All of it goes by the directory's
// bytes alone, and answers for a slice of any length.
#![tactic(auto)]

ghost use Rattle.std.specs.Prelude.{◌≡◌, ◌≤◌, ◌<◌};
ghost use Rattle.slots.specs.Tracks.{bad_tracks};
ghost use Rattle.directory.specs.Places.{slot_place, dir_sector_or};
ghost use Rattle.directory.specs.Directory.{label_of, tracks_of, slots_in, slots_read, directory, slot_or};
ghost use Rattle.directory.specs.Find.{find, found_at};

// The most slots that there can be: those of 39 tracks.
pub const SLOTS: usize = 778;

// Where slot `i`, counted from 0, lies; the image's size past the last slot. A number and no Option, as the definition has it: nothing
// of an image lies there.
#[tactic(auto, unfolding(crate::specs::Places::slot_place, crate::specs::Places::slot_at, crate::specs::Places::past_gap))]
pub fn slot_place(i: usize) -> usize
    ensures { (result ≡ slot_place i) × (result ≤ 819200) }
{
    if SLOTS <= i {
        return geometry::IMAGE_SIZE;
    }
    let k = if i < 80 { i } else { i + 2 };
    k / 20 * 10240 + k % 20 * 256
}

// The number of the sector that slot `i`, counted from 0, lies in; 1,600, the number of no sector, past the last slot. A number and no
// Option, as the definition has it.
#[tactic(auto, unfolding(crate::specs::Places::slot_place, crate::specs::Places::slot_at, crate::specs::Places::past_gap, crate::specs::Places::dir_sector_or, crate::specs::Places::dir_sector))]
pub fn dir_sector(i: usize) -> usize
    ensures { result ≡ dir_sector_or i }
{
    slot_place(i) / 512
}

// The number of directory tracks beyond four, by byte 255 of slot 1: 0 where that is above 35.
#[tactic(auto, using(crate::proofs::Label::label_at), unfolding(crate::specs::Directory::tracks_of, slots::specs::Tracks::tracks_by))]
pub fn tracks_of(dir: &[u8]) -> usize
    ensures { (result ≡ tracks_of dir.now) × (result ≤ 35) }
{
    let n = buffers::num_at(dir, 255);
    if n <= 35 { n } else { 0 }
}

// Whether that byte is 36 to 254.
#[tactic(auto, using(crate::proofs::Label::label_at), unfolding(slots::specs::Tracks::bad_tracks))]
pub fn has_bad_tracks(dir: &[u8]) -> bool
    ensures { result ≡ bad_tracks (label_of dir.now 255) }
{
    let n = buffers::num_at(dir, 255);
    35 < n && n != 255
}

// How many slots there are, read or not.
#[tactic(auto, unfolding(crate::specs::Places::slot_count))]
pub fn slots_in(dir: &[u8]) -> usize
    ensures { (result ≡ slots_in dir.now) × (result ≤ 778) }
{
    let tracks = tracks_of(dir);
    if tracks == 0 {
        return 80;
    }
    78 + 20 * tracks
}

// The 256 bytes of slot `i`, counted from 0, uncopied; none past the last slot.
#[tactic(auto, unfolding(crate::specs::Directory::slot_or, crate::specs::Places::slot_place))]
pub fn slot_at(dir: &[u8], i: usize) -> &[u8]
    ensures { result.now ≡ slot_or dir.now i }
{
    if SLOTS <= i {
        return &[];
    }
    buffers::part_at(dir, slot_place(i), 256)
}

// How many slots are read: those before the first that has no name.
pub fn slots_read(dir: &[u8]) -> usize
    ensures { (result ≡ slots_read dir.now) × (result ≤ 778) }
{
    let count = slots_in(dir);
    for i in 0..count {
        if slots::is_nameless(slot_at(dir, i)) {
            return i;
        }
    }
    count
}

// The lowest live slot that has that name, filled to ten bytes; no slot has a longer one.
pub fn find(dir: &[u8], name: &[u8]) -> Option<usize>
    ensures { found_at result ≡ find (directory dir.now) name.now }
{
    if 10 < name.len() {
        return None;
    }
    let filled = names::padded_name(name);
    for i in 0..slots_read(dir) {
        if slots::is_named(slot_at(dir, i), &filled) {
            return Some(i);
        }
    }
    None
}
