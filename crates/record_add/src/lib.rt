// A piece of a recording: the sectors that it completes are written, each with its link, and the record grows by it.
#![tactic(auto)]

ghost use Rattle.std.specs.Prelude.{◌≡◌, ◌++◌, ◌+◌, ◌≤◌, length};
ghost use Rattle.refusals.specs.Answers.{outcome_of};
ghost use Rattle.changes.specs.ChangeCalls.{Applied};
ghost use Rattle.recordings.specs.Recording.{piece_steps};
ghost use Rattle.recordings.specs.Record.{last_from, record_with, recording_of};
ghost use Rattle.record_add.specs.Adding.{sectors_capped, steps_along, SectorsAlong, Completes, PieceReady, AddsPiece};

use recordings::Record;
use refusals::{Reason, Refused, refuse};
use surveys::UsedMap;

// How many sectors a body of `long` bytes and `more` takes: 1,561, more than there are, where no disk holds it.
fn sectors_of(long: usize, more: usize) -> usize
    ensures { result ≡ sectors_capped (long + more) }
{
    (long.saturating_add(more).min(795592) + 518) / 510
}

// Where the last sector's body bytes begin, of a body of `long` bytes.
#[tactic(auto, unfolding(slots::specs::Slot::sectors_for))]
fn last_from(long: usize) -> usize
    requires { long ≤ 795591 }
    ensures { result ≡ last_from long }
{
    (510 * ((long + 518) / 510 - 1)).saturating_sub(9)
}

// Writes `count` sectors along the clear bits of a map from `bit` on, each with its link to the next: as payload two lists one
// after the other, from a place on. The front of `list` gets their numbers.
fn write_sectors(
    image: &mut [u8],
    map: &[u8],
    bit: usize,
    count: usize,
    front: &[u8],
    back: &[u8],
    from: usize,
    list: &mut [u16],
)
    requires { SectorsAlong map.now bit count from list.old }
    ensures { Applied (steps_along (front.now ++ back.now) from count map.now bit) image.old list.old image.new list.new count }
{
    let mut b = bit;
    for j in 0..count {
        let next = allocation::next_clear(map, b + 1);
        let link = sector_writes::link_of(next);
        sector_writes::write_sector(image, b, front, back, from + 510 * j, link);
        list[j] = sector_writes::sector_number(b);
        b = next;
    }
}

// Puts a piece more into a record: the last sector's bytes go on, or another has begun.
fn grow(kept: &mut Record, piece: &[u8])
    requires { kept.old.long + length piece.now ≤ 795591 }
    ensures { kept.new ≡ record_with kept.old piece.now }
{
    let long = kept.long;
    let total = long + piece.len();
    buffers::copy_into(&mut kept.first, long, piece);
    if (total + 518) / 510 == (long + 518) / 510 {
        buffers::copy_into(&mut kept.last, long - last_from(long), piece);
    } else {
        let from = last_from(total) - long;
        kept.last = [0u8; 510];
        buffers::copy_into(
            &mut kept.last,
            0,
            buffers::part_at(piece, from, piece.len()),
        );
    }
    kept.long = total;
}

// Writes the sectors that a piece completes, from map bit `bit` on: what waits for the first of them, and then the piece.
fn write_piece(
    image: &mut [u8],
    map: &[u8],
    bit: usize,
    count: usize,
    kept: &Record,
    piece: &[u8],
    list: &mut [u16],
)
    requires { Completes map.now bit count kept.now piece.now list.old }
    ensures { Applied (piece_steps (recording_of kept.now) piece.now) image.old list.old image.new list.new count }
{
    let long = kept.long;
    if long <= 501 {
        let none = buffers::part_at(piece, 0, 0);
        write_sectors(image, map, bit, count, none, piece, 501 - long, list);
        return;
    }
    let wait = buffers::part_at(&kept.last, 0, long - last_from(long));
    write_sectors(image, map, bit, count, wait, piece, 0, list);
}

// Adds a piece on an accepted disk that has not moved, where the sectors and the list suffice.
fn add_at(
    image: &mut [u8],
    used: UsedMap,
    bit: usize,
    kept: &mut Record,
    piece: &[u8],
    list: &mut [u16],
) -> Result<usize, Refused>
    requires { PieceReady image.old used kept.old bit }
    ensures { AddsPiece kept.old piece.now image.old list.old (outcome_of result) kept.new image.new list.new }
{
    let n = sectors_of(kept.long, piece.len());
    if surveys::free_of(used) < n {
        return refuse(Reason::TooFewSectors, 0);
    }
    // Of each number all but the first and the last.
    let count = n.saturating_sub(2) - sectors_of(kept.long, 0).saturating_sub(2);
    if list.len() < count {
        return refuse(Reason::BufferTooShort, 0);
    }
    let map = allocation::unavailable_bits(used);
    write_piece(image, &map, bit, count, kept, piece, list);
    grow(kept, piece);
    Ok(count)
}

// Adds a piece to a recording: the sectors after the first that now have a byte beyond them are written, the front of `list`
// gets their numbers, the answer says how many, and the record grows. A refused piece changes nothing.
pub fn add(
    image: &mut [u8],
    kept: &mut Record,
    piece: &[u8],
    list: &mut [u16],
) -> Result<usize, Refused>
    ensures { AddsPiece kept.old piece.now image.old list.old (outcome_of result) kept.new image.new list.new }
{
    let used = disk::examine(image)?.used;
    let n = sectors_of(kept.long, 0);
    match recording_links::follow(image, used, &kept.used, kept.tracks, n) {
        None => refuse(Reason::RecordingMoved, 0),
        Some(bit) => add_at(image, used, bit, kept, piece, list),
    }
}
