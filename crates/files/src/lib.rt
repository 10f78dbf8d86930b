// The calls that read an accepted disk: its listing, a file's body, a file's start address.
#![tactic(auto)]

ghost use Rattle.std.specs.Prelude.{◌≡◌, true, ◌*◌, ◌≤◌, ◌<◌, length};
ghost use Rattle.buffers.specs.Bytes.{put};
ghost use Rattle.refusals.specs.Answers.{outcome_of, out};
ghost use Rattle.geometry.specs.Disk.{image_size};
ghost use Rattle.slots.specs.Slot.{kind_of, readable};
ghost use Rattle.chains.specs.File.{file_of};
ghost use Rattle.headers.specs.Header.{body};
ghost use Rattle.directory.specs.Places.{slots};
ghost use Rattle.directory.specs.Directory.{directory, live_among};
ghost use Rattle.disk.specs.View.{view};
ghost use Rattle.files.specs.Calls.{listing_entry, entries, listing, listed_outcome, lookup, lookup_of, start_at, start_address, read_at, reading};
ghost use Rattle.files.specs.Steps.{CheckedDisk, ReadableSlot};

use refusals::{Reason, Refused};
use surveys::Survey;

// What a listing answers: how many files there are, and the free sectors.
#[derive(Clone, Copy, Debug, PartialEq, Eq)]
pub struct Listed {
    pub files: usize,
    pub free: usize,
}

// The bytes of an entry of a listing.
pub const ENTRY_BYTES: usize = 258;

// Puts a slot's number, low byte first, and its bytes at a place of a buffer.
fn put_entry(buf: &mut [u8], at: usize, number: usize, s: &[u8])
    requires { (at ≤ 200724) × (number ≤ 778) }
    ensures { buf.new ≡ put buf.old at (listing_entry number s.now) }
{
    let head = (number as u16).to_le_bytes();
    buffers::copy_into(buf, at, &head);
    buffers::copy_into(buf, at + 2, s);
}

// Puts an entry for each live slot to the front of a buffer, as far as `end`: past it there is no live slot to look for.
fn list_into(dir: &[u8], end: usize, buf: &mut [u8])
    requires { (image_size ≤ length dir.now) × (end ≡ 258 * live_among (directory dir.now) slots) }
    ensures { buf.new ≡ put buf.old 0 (entries (directory dir.now) slots) }
{
    let mut at: usize = 0;
    let mut i: usize = 0;
    // No plainer: the loop ends on the entries that are put, so that no slot past the last live one is looked at.
    while at < end {
        let s = directory::slot_at(dir, i);
        i += 1;
        if slots::is_live(s) {
            put_entry(buf, at, i, s);
            at += ENTRY_BYTES;
        }
    }
}

// Lists the files of an accepted disk, of which `found` was found.
fn list_accepted(image: &[u8], found: &Survey, buf: &mut [u8]) -> Result<Listed, Refused>
    requires { CheckedDisk image.now found.now.used × (found.now.files ≡ live_among (directory image.now) slots) }
    ensures { out (listed_outcome result) buf.new ≡ listing image.now buf.old }
{
    let files = found.files;
    let end = ENTRY_BYTES * files;
    if buf.len() < end {
        return refusals::refuse(Reason::BufferTooShort, 0);
    }
    list_into(image, end, buf);
    Ok(Listed {
        files,
        free: surveys::free_of(found.used),
    })
}

// The listing: 258 bytes for each live slot to the front of `buf`; how many, and the free sectors.
pub fn list(image: &[u8], buf: &mut [u8]) -> Result<Listed, Refused>
    ensures { out (listed_outcome result) buf.new ≡ listing image.now buf.old }
{
    let found = disk::examine(image)?;
    list_accepted(image, &found, buf)
}

// A live slot, counted from 0, by its name; or what is refused before it is found: the disk check's numbers, 12, 15.
pub fn look_up(image: &[u8], name: &[u8]) -> Result<usize, Refused>
    ensures { lookup_of result ≡ lookup (view image.now) name.now }
{
    disk::check(image)?;
    if !names::is_askable(name) {
        return refusals::refuse(Reason::NameNotUsable, 0);
    }
    match directory::find(image, name) {
        Some(i) => Ok(i),
        None => refusals::refuse(Reason::NameNotFound, 0),
    }
}

// The start address of the file in a slot, whose number is `slot`.
fn start_at(image: &[u8], s: &[u8], slot: usize) -> Result<usize, Refused>
    ensures { outcome_of result ≡ start_at slot (file_of image.now s.now) }
{
    let kind = slots::kind_of(s);
    if slots::is_spectrum(kind) {
        return Ok(headers::header_start(headers::first_sector(image, s)));
    }
    if !slots::is_carried(kind) {
        return refusals::refuse(Reason::WrongKind, slot);
    }
    let offset = slots::offset_of(s);
    if offset < 32768 || 49151 < offset {
        return refusals::refuse(Reason::StartOutOfRange, slot);
    }
    Ok(slots::page_of(s) * 16384 + offset - 16384)
}

// The start address of a file.
pub fn start(image: &[u8], name: &[u8]) -> Result<usize, Refused>
    ensures { outcome_of result ≡ start_address image.now name.now }
{
    let i = look_up(image, name)?;
    start_at(image, directory::slot_at(image, i), i + 1)
}

// Copies the body of slot `s` along its links to the front of `buf`: a run of at most 510 bytes from each sector, and
// from the first only those past the header's nine. The next sector's place comes from the link itself, not from its bit.
fn copy_body(image: &[u8], s: &[u8], buf: &mut [u8])
    requires { ReadableSlot image.now s.now }
    ensures { buf.new ≡ put buf.old 0 (body (file_of image.now s.now)) }
{
    let len = headers::file_length(image, s);
    let mut at = geometry::bit_place(slots::first_of(s));
    let mut from: usize = 9;
    let mut done: usize = 0;
    // No plainer: the loop goes along the chain's links, by runs.
    while done < len {
        let track = buffers::num_at(image, at + 510);
        let number = buffers::num_at(image, at + 511);
        let n = (510 - from).min(len - done);
        buffers::copy_into(buf, done, buffers::part_at(image, at + from, n));
        at = geometry::data_place(track, number);
        from = 0;
        done += n;
    }
}

// Reads the file of an accepted disk in a slot, whose number is `slot`.
fn read_at(image: &[u8], s: &[u8], slot: usize, buf: &mut [u8]) -> Result<usize, Refused>
    requires { readable (kind_of s.now) ≡ true → ReadableSlot image.now s.now }
    ensures { out (outcome_of result) buf.new ≡ read_at slot (file_of image.now s.now) buf.old }
{
    if !slots::is_readable(slots::kind_of(s)) {
        return refusals::refuse(Reason::WrongKind, slot);
    }
    let len = headers::file_length(image, s);
    if buf.len() < len {
        return refusals::refuse(Reason::BufferTooShort, 0);
    }
    copy_body(image, s, buf);
    Ok(len)
}

// The body of a file, copied to the front of `buf`; its length.
pub fn read(image: &[u8], name: &[u8], buf: &mut [u8]) -> Result<usize, Refused>
    ensures { out (outcome_of result) buf.new ≡ reading image.now name.now buf.old }
{
    let i = look_up(image, name)?;
    read_at(image, directory::slot_at(image, i), i + 1, buf)
}
