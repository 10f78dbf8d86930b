// Saving a file: its data sectors along a chain of free bits, then the directory's part, and the list of the sectors written.
#![tactic(auto)]

ghost use Rattle.std.specs.Prelude.{◌≡◌, ◌++◌, map, ◌+◌, ◌≤◌, length, drop, take};
ghost use Rattle.buffers.specs.Bytes.{put};
ghost use Rattle.geometry.specs.Disk.{bit_number};
ghost use Rattle.disk.specs.View.{view};
ghost use Rattle.steps.specs.Steps.{apply};
ghost use Rattle.plans.specs.Change.{save};
ghost use Rattle.plans.specs.Plan.{data_steps, dir_sectors, save_steps};
ghost use Rattle.changes.specs.ChangeCalls.{ReturnsChange, Applied};
ghost use Rattle.allocation.specs.Taken.{lowest_clear_bits};
ghost use Rattle.sector_writes.specs.Sector.{link_to_next};
ghost use Rattle.saves.specs.Write.{save_request, save_request_for, Bits, Writable, SaveReady, SaveSlot};

use allocation::HeaderFields;
use refusals::{Reason, Refused, refuse};
use sector_writes::Link;
use slot_writes::Particulars;
use surveys::UsedMap;

// The link to the sector `j` of a chain; past its end there is none.
fn link_to(bits: &[u16], j: usize) -> Link
    requires { Bits bits.now }
    ensures { result ≡ link_to_next (drop j bits.now) }
{
    if bits.len() <= j {
        return Link {
            track: 0,
            sector: 0,
        };
    }
    sector_writes::link_of(usize::from(bits[j]))
}

// Writes the data sectors of a chain.
fn write_chain(image: &mut [u8], head: &[u8], body: &[u8], bits: &[u16])
    requires { Bits bits.now }
    ensures { image.new ≡ apply image.old (data_steps (head.now ++ body.now) 0 bits.now) }
{
    for k in 0..bits.len() {
        let link = link_to(bits, k + 1);
        sector_writes::write_sector(image, usize::from(bits[k]), head, body, 510 * k, link);
    }
}

// Turns the first `n` numbers of a list from map bits into sector numbers.
fn to_numbers(list: &mut [u16], n: usize)
    requires { (n ≤ length list.old) × Bits (take n list.old) }
    ensures { list.new ≡ put list.old 0 (map bit_number (take n list.old)) }
{
    for j in 0..n {
        list[j] = sector_writes::sector_number(usize::from(list[j]));
    }
}

// Writes a file into slot `i`: the data sectors of its chain, no old name behind the slot, then the slot.
fn write_file(image: &mut [u8], i: usize, old: bool, what: &Particulars, body: &[u8], bits: &[u16])
    requires { Writable i old what.now.start body.now bits.now × (256 ≤ length image.old) }
    ensures { image.new ≡ apply image.old (save_steps old (view image.old) i (save_request_for what.now.start what.now.name.now what.now.exec.now what.now.info.now body.now) bits.now) }
{
    let map = slot_writes::map_with(bits);
    let first = link_to(bits, 0);
    let slot = slot_writes::slot_of(image, i, what, body.len(), bits.len(), first, &map);
    let head = sector_writes::header_of(what.start, body.len());
    write_chain(image, &head, body, bits);
    slot_writes::put_slot(image, i, old, &slot);
}

// Writes a file of `n` sectors into slot `i` of a disk: the lowest clear bits of `map` are its chain, and the
// list gets the numbers of its sectors, those of the directory last.
fn write_save(
    image: &mut [u8],
    map: &[u8],
    n: usize,
    i: usize,
    old: bool,
    what: &Particulars,
    body: &[u8],
    list: &mut [u16],
)
    requires { SaveReady map.now n i old what.now.start body.now list.old × (256 ≤ length image.old) }
    ensures { Applied (save_steps old (view image.old) i (save_request_for what.now.start what.now.name.now what.now.exec.now what.now.info.now body.now) (lowest_clear_bits map.now n)) image.old list.old image.new list.new (n + length (dir_sectors old i)) }
{
    allocation::pick_bits(map, n, list);
    write_file(image, i, old, what, body, &list[..n]);
    to_numbers(list, n);
    let last = n;
    slot_writes::put_dirs(list, last, i, old);
}

// Saves into the free slot `i` of an accepted disk whose used map is `used`, where the sectors and the list suffice.
fn save_at(
    image: &mut [u8],
    used: UsedMap,
    i: usize,
    what: &Particulars,
    body: &[u8],
    list: &mut [u16],
) -> Result<usize, Refused>
    requires { SaveSlot image.old used i what.now.start what.now.name.now }
    ensures { ReturnsChange (save (save_request_for what.now.start what.now.name.now what.now.exec.now what.now.info.now body.now)) image.old list.old result image.new list.new }
{
    // No disk holds more, and past the largest number the sectors could not be counted.
    if 795591 < body.len() {
        return refuse(Reason::TooFewSectors, 0);
    }
    let n = (body.len() + 518) / 510;
    if surveys::free_of(used) < n {
        return refuse(Reason::TooFewSectors, 0);
    }
    let old = slot_writes::has_old_name(image, i);
    let named = n + slot_writes::dir_count(i, old);
    if list.len() < named {
        return refuse(Reason::BufferTooShort, 0);
    }
    let map = allocation::unavailable_bits(used);
    write_save(image, &map, n, i, old, what, body, list);
    Ok(named)
}

// Saves a file: the image changes, the front of `list` gets the numbers of the sectors in the order of writing, and the
// answer says how many. A refused save changes nothing.
pub fn save(
    image: &mut [u8],
    kind: usize,
    name: &[u8],
    page: usize,
    offset: usize,
    exec: &[u8],
    info: &[u8],
    body: &[u8],
    list: &mut [u16],
) -> Result<usize, Refused>
    ensures { ReturnsChange (save (save_request kind name.now page offset exec.now info.now body.now)) image.old list.old result image.new list.new }
{
    let used = disk::examine(image)?.used;
    let start = HeaderFields { kind, page, offset };
    let i = allocation::slot_for(image, start, name)?;
    let what = Particulars {
        start,
        name,
        exec,
        info,
    };
    save_at(image, used, i, &what, body, list)
}
