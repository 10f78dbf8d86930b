// What a file's first sector says: rows 11 and 25 of the table at one slot, after row 10, and the length of the file's body.
#![tactic(auto)]

ghost use Rattle.std.specs.Prelude.{◌≡◌, ◌≤◌, ◌<◌};
ghost use Rattle.refusals.specs.Answers.{reply_of};
ghost use Rattle.slots.specs.Slot.{slot_fields};
ghost use Rattle.chains.specs.File.{file_of};
ghost use Rattle.headers.specs.Header.{first_sector, header_differs, header_length, header_start, chain_reply, chain_pass_reply, file_length};

use refusals::{Reason, Refused, refuse};

// The first sector of a slot's file, uncopied; an empty part where the slot's own map lacks it.
#[tactic(auto, using(crate::proofs::Rows::first_own), unfolding(chains::specs::File::file_of, chains::specs::File::sectors_of, slots::specs::Slot::slot_fields))]
pub fn first_sector<'a>(image: &'a [u8], s: &[u8]) -> &'a [u8]
    ensures { result.now ≡ first_sector (file_of image.now s.now) }
{
    if !maps::has_bit(slots::map_of(s), slots::first_of(s)) {
        return &[];
    }
    buffers::part_at(image, chains::first_place(s), 512)
}

// Row 11's test of the nine header bytes that a file's first sector begins with.
#[tactic(auto, unfolding(crate::specs::Header::header_differs, slots::specs::Slot::slot_fields))]
fn header_differs(sector: &[u8], s: &[u8]) -> bool
    ensures { result ≡ header_differs (slot_fields s.now) sector.now }
{
    buffers::num_at(sector, 0) != slots::kind_of(s)
        || slots::two_at(sector, 1) % 16384 != slots::remainder_of(s)
        || buffers::num_at(sector, 7) != slots::pages_of(s)
}

// The length that the header of a Spectrum's file has.
pub fn header_length(sector: &[u8]) -> usize
    ensures { (result ≡ header_length sector.now) × (result ≤ 65535) }
{
    slots::two_at(sector, 1)
}

// The start that it has.
pub fn header_start(sector: &[u8]) -> usize
    ensures { (result ≡ header_start sector.now) × (result ≤ 65535) }
{
    slots::two_at(sector, 3)
}

// The length of a file's body: a Spectrum's header has it, and of any other kind the slot.
#[tactic(auto, unfolding(crate::specs::Header::file_length, chains::specs::File::file_of))]
pub fn file_length(image: &[u8], s: &[u8]) -> usize
    ensures { (result ≡ file_length (file_of image.now s.now)) × (result < 4194304) }
{
    if slots::is_spectrum(slots::kind_of(s)) {
        return header_length(first_sector(image, s));
    }
    slots::length_of(s)
}

// Rows 10, 11 and 25 at the slot of a file with sectors.
#[tactic(auto, unfolding(crate::specs::Header::chain_reply, chains::specs::File::file_of, slots::specs::Slot::slot_fields))]
fn chain_rows(image: &[u8], s: &[u8], slot: usize) -> Result<(), Refused>
    ensures { reply_of result ≡ chain_reply slot (file_of image.now s.now) }
{
    if chains::chain_broken(image, s) {
        return refuse(Reason::ChainBroken, slot);
    }
    let kind = slots::kind_of(s);
    let first = first_sector(image, s);
    if slots::is_carried(kind) && header_differs(first, s) {
        return refuse(Reason::HeaderDiffers, slot);
    }
    if slots::is_spectrum(kind) && 510 * slots::count_of(s) < 9 + header_length(first) {
        return refuse(Reason::BodyTooLong, slot);
    }
    Ok(())
}

// Rows 10, 11 and 25 at one slot.
#[tactic(auto, unfolding(crate::specs::Header::chain_reply, crate::specs::Header::chain_pass_reply, chains::specs::File::file_of, slots::specs::Slot::slot_fields, slots::specs::Slot::is_directory))]
pub fn chain_pass_rows(image: &[u8], s: &[u8], slot: usize) -> Result<(), Refused>
    ensures { reply_of result ≡ chain_pass_reply slot (file_of image.now s.now) }
{
    if slots::is_directory(s) {
        return Ok(());
    }
    chain_rows(image, s, slot)
}
