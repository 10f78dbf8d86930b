// The sector arithmetic: tracks and sectors, places in the image, map bits.
// It stands below the directory rules. Every function answers for numbers of any size.
#![tactic(auto)]

ghost use Rattle.std.specs.Prelude.{◌≡◌, ◌≤◌};
ghost use Rattle.geometry.specs.Disk.{is_sector, is_data, bit_of, place_or_end, spot_of, spot_of_bit, map_bit_of, address_of};

mod places;

use places::PLACES;

// The bytes of an image.
pub const IMAGE_SIZE: usize = 819200;

// The sectors that the map has a bit for.
pub const DATA_SECTORS: usize = 1560;

// The track and the sector of a map bit.
#[derive(Clone, Copy, Debug, PartialEq, Eq)]
pub struct Address {
    pub track: usize,
    pub sector: usize,
}

// Is there such a sector? The side is asked for by a branch: as one expression it is chosen by value, and a check pays for that
// at every link of a chain.
#[tactic(auto, unfolding(crate::specs::Disk::is_sector))]
pub fn is_sector(track: usize, sector: usize) -> bool
    ensures { result ≡ is_sector track sector }
{
    if sector < 1 || sector > 10 {
        return false;
    }
    if track < 128 {
        return track < 80;
    }
    track < 208
}

// Has the map a bit for it?
#[tactic(auto, unfolding(crate::specs::Disk::is_data))]
pub fn is_data(track: usize, sector: usize) -> bool
    ensures { result ≡ is_data track sector }
{
    4 <= track && is_sector(track, sector)
}

// Where a sector begins in the image.
#[tactic(auto, using(crate::proofs::Tests::sector_bounds), unfolding(crate::specs::Disk::spot_of))]
pub fn place(track: usize, sector: usize) -> Option<usize>
    ensures { result ≡ spot_of track sector }
{
    if is_sector(track, sector) {
        Some(((2 * (track % 128) + track / 128) * 10 + sector - 1) * 512)
    } else {
        None
    }
}

// The map bit as a plain number, for loops: 1,560 where it is no data sector. A number and no Option, as the definition has it; `bit_of`
// is the Option.
#[tactic(auto, using(crate::proofs::Laws::bits))]
pub fn bit_or_end(track: usize, sector: usize) -> usize
    ensures { (result ≡ bit_of track sector) × (result ≤ 1560) }
{
    if is_data(track, sector) {
        if track < 128 {
            (track - 4) * 10 + sector - 1
        } else {
            760 + (track - 128) * 10 + sector - 1
        }
    } else {
        DATA_SECTORS
    }
}

// The map bit of a sector, where it is a data sector.
#[tactic(auto, using(crate::proofs::Laws::bit_tests), unfolding(crate::specs::Disk::map_bit_of))]
pub fn bit_of(track: usize, sector: usize) -> Option<usize>
    ensures { result ≡ map_bit_of track sector }
{
    let bit = bit_or_end(track, sector);
    if bit < DATA_SECTORS { Some(bit) } else { None }
}

#[tactic(auto, unfolding(crate::specs::Disk::address_of, crate::specs::Disk::track_of))]
pub fn address_of(bit: usize) -> Option<Address>
    ensures { result ≡ address_of bit }
{
    if bit >= DATA_SECTORS {
        return None;
    }
    let track = if bit < 760 {
        4 + bit / 10
    } else {
        128 + (bit - 760) / 10
    };
    Some(Address {
        track,
        sector: bit % 10 + 1,
    })
}

// The table's entry for a map bit, each of them the place that the rule gives; the image's size where there is no such bit.
fn entry_of(bit: usize) -> usize
    ensures { result ≡ place_or_end bit }
{
    if bit < DATA_SECTORS {
        PLACES[bit] as usize
    } else {
        IMAGE_SIZE
    }
}

// From the table, which a call puts on the stack. What the library's calls reach uses `bit_place`: it may hold no table of numbers,
// since each machine lays these out in a way of its own (cross/guard).
#[tactic(auto, using(crate::proofs::Laws::place_or_end_lem), unfolding(crate::specs::Disk::spot_of_bit))]
pub fn place_of_bit(bit: usize) -> Option<usize>
    ensures { result ≡ spot_of_bit bit }
{
    if bit < DATA_SECTORS {
        Some(entry_of(bit))
    } else {
        None
    }
}

// The same place computed, as a plain number: the image's size where there is no such bit. A number and no Option, as the definition
// has it: nothing of an image lies there.
#[tactic(auto, using(crate::proofs::Laws::bit_places))]
pub fn bit_place(bit: usize) -> usize
    ensures { result ≡ place_or_end bit }
{
    if bit < 760 {
        (20 * (4 + bit / 10) + bit % 10) * 512
    } else if bit < DATA_SECTORS {
        (20 * ((bit - 760) / 10) + 10 + bit % 10) * 512
    } else {
        IMAGE_SIZE
    }
}

// The place of a data sector, from its address, with no division by 10: the image's size where it is none, as for `bit_place`.
#[tactic(auto, using(crate::proofs::Laws::data_places))]
pub fn data_place(track: usize, sector: usize) -> usize
    ensures { result ≡ place_or_end (bit_of track sector) }
{
    if is_data(track, sector) {
        ((2 * (track % 128) + track / 128) * 10 + sector - 1) * 512
    } else {
        IMAGE_SIZE
    }
}
