// Gathering a scattered file: its sectors copied to the lowest run of free ones, then its slot, and the list of the sectors
// written.
#![tactic(auto)]

ghost use Rattle.std.specs.Prelude.{◌≡◌, ◌+◌, ◌≤◌, length};
ghost use Rattle.buffers.specs.Bytes.{part, put};
ghost use Rattle.geometry.specs.Disk.{place_or_end};
ghost use Rattle.chains.specs.File.{file_of};
ghost use Rattle.chains.specs.Chain.{linked_bit};
ghost use Rattle.disk.specs.View.{view};
ghost use Rattle.steps.specs.Steps.{apply};
ghost use Rattle.plans.specs.Change.{gather};
ghost use Rattle.plans.specs.Saving.{sector_bytes, map_with};
ghost use Rattle.plans.specs.Gathering.{scattered, up_from};
ghost use Rattle.plans.specs.Gathered.{run_sectors};
ghost use Rattle.plans.specs.Plan.{gather_steps};
ghost use Rattle.changes.specs.ChangeCalls.{ReturnsChange};
ghost use Rattle.gathers.specs.Moving.{ChainedSlot, Movable, DisjointRanges, TwoBits, file_in, count_in, moved_steps, link_to_run};
ghost use Rattle.gathers.specs.Call.{LiveSlotOf, MoveInRange, moved_sectors, gather_changed, gather_at_slot, gather_call, GatherFits};

use refusals::{Reason, Refused, refuse};
use sector_writes::Link;
use surveys::UsedMap;

// Where a file went: its slot, counted from 0, how many sectors, and the map bit of the first.
#[derive(Clone, Copy, Debug, PartialEq, Eq)]
pub struct Move {
    pub slot: usize,
    pub count: usize,
    pub bit: usize,
}

// The bit that the link of a bit's sector leads to.
#[tactic(auto, using(sector_writes::proofs::Links::end_le, crate::proofs::ChainOrder::link_read))]
fn bit_after(image: &[u8], bit: usize) -> usize
    ensures { result ≡ linked_bit (part (place_or_end bit) 512 image.now) }
{
    let at = geometry::bit_place(bit);
    geometry::bit_or_end(
        buffers::num_at(image, at + 510),
        buffers::num_at(image, at + 511),
    )
}

// Whether the chain of a slot is not on consecutive rising bits.
fn is_scattered(image: &[u8], s: &[u8]) -> bool
    requires { ChainedSlot image.now s.now }
    ensures { result ≡ scattered (file_of image.now s.now) }
{
    let mut bit = slots::first_of(s);
    for k in 1..slots::count_of(s) {
        let next = bit_after(image, bit);
        if next != bit + 1 {
            return true;
        }
        bit = next;
    }
    false
}

// Copies 510 bytes of an image to a place apart from them. Neither is lent beside the other, so they go one by one, and the
// compiler makes runs of them. The library's copy_within goes one by one too, with a loop for each way.
fn copy_payload(image: &mut [u8], from: usize, to: usize)
    requires { DisjointRanges (length image.old) from to }
    ensures { image.new ≡ put image.old to (part from 510 image.old) }
{
    for j in 0..510 {
        image[to + j] = image[from + j];
    }
}

// Copies the payload of the sector at bit `from` to bit `to`, with another link.
fn move_sector(image: &mut [u8], from: usize, to: usize, link: Link)
    requires { TwoBits (length image.old) from to }
    ensures { image.new ≡ put image.old (place_or_end to) (sector_bytes (part (place_or_end from) 512 image.old) 0 link.track link.sector) }
{
    let at = geometry::bit_place(to);
    copy_payload(image, geometry::bit_place(from), at);
    buffers::copy_into(image, at + 510, &[link.track, link.sector]);
}

// The link to the first of the `n` bits from `b` on; 0, 0 where there is none.
#[tactic(auto, using(crate::proofs::Moving::run_link_none, crate::proofs::Moving::run_link_some))]
fn link_to(n: usize, b: usize) -> Link
    requires { b + n ≤ 1560 }
    ensures { result ≡ link_to_run n b }
{
    if n == 0 {
        return Link {
            track: 0,
            sector: 0,
        };
    }
    sector_writes::link_of(b)
}

// Copies the sectors of the file in slot `i` along its links to the bits from `b` on, chained rising.
fn move_chain(image: &mut [u8], i: usize, b: usize)
    requires { Movable image.old i b }
    ensures { image.new ≡ apply image.old (moved_steps image.old i b) }
{
    let count = slots::count_of(directory::slot_at(image, i));
    let mut bit = slots::first_of(directory::slot_at(image, i));
    for k in 0..count {
        let next = bit_after(image, bit);
        let link = link_to(count - (k + 1), b + (k + 1));
        move_sector(image, bit, b + k, link);
        bit = next;
    }
}

// The map with the `n` bits from `b` on set.
fn map_run(n: usize, b: usize) -> [u8; 195]
    requires { b + n ≤ 1560 }
    ensures { result ≡ map_with (up_from n b) }
{
    let mut map = [0u8; 195];
    for j in (0..n).rev() {
        maps::set_bit(&mut map, b + j);
    }
    map
}

// Moves the file in slot `i` to the bits from `b` on: its sectors, and then bytes 13 to 209 of the slot.
fn write_moved(image: &mut [u8], i: usize, b: usize)
    requires { Movable image.old i b }
    ensures { image.new ≡ apply image.old (gather_steps (view image.old) i (file_in image.old i) (up_from (count_in image.old i) b)) }
{
    let count = slots::count_of(directory::slot_at(image, i));
    move_chain(image, i, b);
    let at = directory::slot_place(i) + 13;
    let link = link_to(count, b);
    buffers::copy_into(image, at, &[link.track, link.sector]);
    buffers::copy_into(image, at + 2, &map_run(count, b));
}

// Gathers the file in slot `i` of an accepted disk whose used map is `used`, where there is a run and a list of `room` numbers
// suffices.
fn gather_at(
    image: &mut [u8],
    used: UsedMap,
    i: usize,
    room: usize,
) -> Result<Option<Move>, Refused>
    requires { LiveSlotOf image.old used i }
    ensures { (gather_changed result image.new ≡ gather_at_slot image.old i room) × GatherFits result room }
{
    let s = directory::slot_at(image, i);
    if slots::is_directory(s) {
        return refuse(Reason::WrongKind, i + 1);
    }
    if !is_scattered(image, s) {
        return Ok(None);
    }
    let count = slots::count_of(s);
    let map = allocation::unavailable_bits(used);
    match free_runs::find_run(&map, count) {
        None => refuse(Reason::NoFreeRun, 0),
        Some(bit) => {
            if room <= count {
                return refuse(Reason::BufferTooShort, 0);
            }
            write_moved(image, i, bit);
            Ok(Some(Move {
                slot: i,
                count,
                bit,
            }))
        }
    }
}

// Gathers a file where a list has room for `room` numbers: the image changes, and the answer says where the file went, from
// which the sectors are told. So a caller puts their numbers to a list of its own, and none is needed beside it.
pub fn gather_in(image: &mut [u8], name: &[u8], room: usize) -> Result<Option<Move>, Refused>
    ensures { (gather_changed result image.new ≡ gather_call name.now image.old room) × GatherFits result room }
{
    let survey = disk::examine(image)?;
    if !names::is_askable(name) {
        return refuse(Reason::NameNotUsable, 0);
    }
    match directory::find(image, name) {
        None => refuse(Reason::NameNotFound, 0),
        Some(i) => gather_at(image, survey.used, i, room),
    }
}

// Puts the sector numbers of the `n` bits from `b` on to the front of a list.
#[tactic(auto, using(crate::proofs::Listed::listed_none, crate::proofs::Listed::listed_all))]
fn put_run(list: &mut [u16], n: usize, b: usize)
    requires { (n ≤ length list.old) × (b + n ≤ 1560) }
    ensures { list.new ≡ put list.old 0 (run_sectors n b) }
{
    for j in 0..n {
        list[j] = sector_writes::sector_number(b + j);
    }
}

// The same of a file that was moved, with its directory sector last.
fn put_moved(list: &mut [u16], to: Move)
    requires { MoveInRange to (length list.old) }
    ensures { list.new ≡ put list.old 0 (moved_sectors to) }
{
    let count = to.count;
    put_run(list, count, to.bit);
    buffers::put_number(list, count, directory::dir_sector(to.slot) as u16);
}

// Gathers a file: the image changes, the front of `list` gets the numbers of the sectors in the order of writing, and the answer
// says how many: 0 where the file lies on consecutive bits already. A refused gather changes nothing.
pub fn gather(image: &mut [u8], name: &[u8], list: &mut [u16]) -> Result<usize, Refused>
    ensures { ReturnsChange (gather name.now) image.old list.old result image.new list.new }
{
    let room = list.len();
    match gather_in(image, name, room)? {
        None => Ok(0),
        Some(to) => {
            put_moved(list, to);
            Ok(to.count + 1)
        }
    }
}
