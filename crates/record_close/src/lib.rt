// Closing a recording: the last sector of its chain, the first if it is another, then the directory's part, and the list of the
// sectors written.
#![tactic(auto)]

ghost use Rattle.std.specs.Prelude.{◌≡◌, ◌+◌, ◌-◌, ◌*◌, ◌≤◌, ◌<◌, length};
ghost use Rattle.buffers.specs.Bytes.{put};
ghost use Rattle.geometry.specs.Disk.{place_or_end};
ghost use Rattle.refusals.specs.Answers.{outcome_of};
ghost use Rattle.steps.specs.Steps.{apply};
ghost use Rattle.plans.specs.Allowed.{sectors_taken};
ghost use Rattle.plans.specs.Saving.{stream, sector_bytes};
ghost use Rattle.plans.specs.Plan.{dir_sectors, changed};
ghost use Rattle.changes.specs.ChangeCalls.{Applied};
ghost use Rattle.allocation.specs.Taken.{lowest_clear_bits};
ghost use Rattle.sector_writes.specs.Sector.{header_fields_of, FieldsFit};
ghost use Rattle.saves.specs.Write.{Bits};
ghost use Rattle.recordings.specs.Recording.{close_data, close_steps};
ghost use Rattle.recordings.specs.Calls.{close_call};
ghost use Rattle.record_close.specs.Close.{request_of, end_sectors, end_numbers, RecordingChain, Closable, CloseReady, StillFits, CloseSlotOf};

use allocation::HeaderFields;
use recordings::Record;
use refusals::{Reason, Refused, refuse};
use sector_writes::Link;
use slot_writes::Particulars;
use surveys::UsedMap;

// The kind of the file that is recorded, and where it is loaded.
#[tactic(auto, unfolding(recordings::specs::Record::recording_of))]
fn start_of(kept: &Record) -> HeaderFields
    ensures { result ≡ header_fields_of (request_of kept.now) }
{
    HeaderFields {
        kind: kept.kind,
        page: kept.page,
        offset: kept.offset,
    }
}

// Writes the first sector of a recording, at a map bit.
fn write_first(image: &mut [u8], kept: &Record, bit: usize, link: Link)
    requires { FieldsFit (header_fields_of (request_of kept.now)) (length (request_of kept.now).body) }
    ensures { image.new ≡ put image.old (place_or_end bit) (sector_bytes (stream (request_of kept.now)) 0 link.track link.sector) }
{
    let long = kept.long;
    let head = sector_writes::header_of(start_of(kept), long);
    sector_writes::write_sector(
        image,
        bit,
        &head,
        buffers::part_at(&kept.first, 0, long),
        0,
        link,
    );
}

// Writes the last sector of a recording, the `n`-th and not the first, at a map bit.
fn write_last(image: &mut [u8], kept: &Record, n: usize, bit: usize)
    requires { (n ≡ sectors_taken (request_of kept.now)) × (1 < n) × (n ≤ 1560) }
    ensures { image.new ≡ put image.old (place_or_end bit) (sector_bytes (stream (request_of kept.now)) (510 * (n - 1)) 0 0) }
{
    let from = 510 * (n - 1) - 9;
    let there = buffers::part_at(&kept.last, 0, kept.long - from);
    let link = Link {
        track: 0,
        sector: 0,
    };
    sector_writes::write_sector(image, bit, there, &[], 0, link);
}

// Writes the last sector of a recording, and then the first if it is another.
fn write_ends(image: &mut [u8], kept: &Record, bits: &[u16])
    requires { RecordingChain kept.now bits.now }
    ensures { image.new ≡ apply image.old (close_data (request_of kept.now) bits.now) }
{
    let n = bits.len();
    if n < 2 {
        let link = Link {
            track: 0,
            sector: 0,
        };
        write_first(image, kept, usize::from(bits[0]), link);
        return;
    }
    write_last(image, kept, n, usize::from(bits[n - 1]));
    let next = sector_writes::link_of(usize::from(bits[1]));
    write_first(image, kept, usize::from(bits[0]), next);
}

// Writes a recording into slot `i`: the ends of its chain, no old name behind the slot, then the slot.
fn write_recording(image: &mut [u8], i: usize, old: bool, kept: &Record, bits: &[u16])
    requires { Closable i old kept.now bits.now × (256 ≤ length image.old) }
    ensures { image.new ≡ apply image.old (close_steps old image.old i (request_of kept.now) bits.now) }
{
    let map = slot_writes::map_with(bits);
    let first = sector_writes::link_of(usize::from(bits[0]));
    let what = Particulars {
        start: start_of(kept),
        name: &kept.name,
        exec: &kept.exec,
        info: &kept.info,
    };
    let slot = slot_writes::slot_of(image, i, &what, kept.long, bits.len(), first, &map);
    write_ends(image, kept, bits);
    slot_writes::put_slot(image, i, old, &slot);
}

// How many sectors of its data a close writes, of a chain of `n`.
#[tactic(auto, unfolding(crate::specs::Close::end_sectors))]
fn ends_of(n: usize) -> usize
    ensures { (result ≡ end_sectors n) × (result ≤ 2) }
{
    if 1 < n { 2 } else { 1 }
}

// Puts the numbers of those sectors to the front of a list.
fn put_ends(list: &mut [u16], bits: &[u16])
    requires { Bits bits.now × (1 ≤ length bits.now) × (end_sectors (length bits.now) ≤ length list.old) }
    ensures { list.new ≡ put list.old 0 (end_numbers bits.now) }
{
    let n = bits.len();
    let first = sector_writes::sector_number(usize::from(bits[0]));
    if n < 2 {
        list[0] = first;
        return;
    }
    list[0] = sector_writes::sector_number(usize::from(bits[n - 1]));
    list[1] = first;
}

// Closes a recording of `n` sectors into slot `i` of a disk: the lowest clear bits of `map` are its chain, and the list gets the
// numbers of the sectors written, those of the directory last.
fn write_close(
    image: &mut [u8],
    map: &[u8],
    n: usize,
    i: usize,
    old: bool,
    kept: &Record,
    list: &mut [u16],
)
    requires { CloseReady map.now n i old kept.now list.old × (256 ≤ length image.old) }
    ensures { Applied (close_steps old image.old i (request_of kept.now) (lowest_clear_bits map.now n)) image.old list.old image.new list.new (end_sectors n + length (dir_sectors old i)) }
{
    // room for the map bits of every chain
    let mut bits = [0u16; 1560];
    allocation::pick_bits(map, n, &mut bits);
    write_recording(image, i, old, kept, &bits[..n]);
    put_ends(list, &bits[..n]);
    slot_writes::put_dirs(list, ends_of(n), i, old);
}

// Closes into the free slot `i` of an accepted disk whose used map is `used`, where the sectors and the list suffice.
fn close_at(
    image: &mut [u8],
    used: UsedMap,
    i: usize,
    kept: &Record,
    list: &mut [u16],
) -> Result<usize, Refused>
    requires { CloseSlotOf image.old used i kept.now }
    ensures { changed (outcome_of result) image.new list.new ≡ close_call kept.now image.old list.old }
{
    // No disk holds more, and past the largest number the sectors could not be counted.
    if 795591 < kept.long {
        return refuse(Reason::TooFewSectors, 0);
    }
    let n = (kept.long + 518) / 510;
    if surveys::free_of(used) < n {
        return refuse(Reason::TooFewSectors, 0);
    }
    let old = slot_writes::has_old_name(image, i);
    let named = ends_of(n) + slot_writes::dir_count(i, old);
    if list.len() < named {
        return refuse(Reason::BufferTooShort, 0);
    }
    let map = allocation::unavailable_bits(used);
    write_close(image, &map, n, i, old, kept, list);
    Ok(named)
}

// Closes on an accepted disk whose used map is `used` and which the recording still fits.
fn close_still(
    image: &mut [u8],
    used: UsedMap,
    kept: &Record,
    list: &mut [u16],
) -> Result<usize, Refused>
    requires { StillFits image.old used kept.now }
    ensures { changed (outcome_of result) image.new list.new ≡ close_call kept.now image.old list.old }
{
    let i = allocation::slot_for(image, start_of(kept), &kept.name)?;
    close_at(image, used, i, kept, list)
}

// Closes a recording: the image changes, the front of `list` gets the numbers of the sectors in the order of writing, and the
// answer says how many. A refused close changes nothing.
pub fn close(image: &mut [u8], kept: &Record, list: &mut [u16]) -> Result<usize, Refused>
    ensures { changed (outcome_of result) image.new list.new ≡ close_call kept.now image.old list.old }
{
    let used = disk::examine(image)?.used;
    // No disk holds more sectors than 1,560, and past the largest number they could not be counted.
    let n = (kept.long.min(795592) + 518) / 510;
    match recording_links::follow(image, used, &kept.used, kept.tracks, n) {
        None => refuse(Reason::RecordingMoved, 0),
        Some(_) => close_still(image, used, kept, list),
    }
}
