// The calls of a recording as the app makes them: the record lent as bytes, and the list of sectors as bytes, two to a number.
#![tactic(auto)]

ghost use Rattle.std.specs.Prelude.{◌≡◌, []};
ghost use Rattle.refusals.specs.Order.{refuse};
ghost use Rattle.refusals.specs.Answers.{outcome_of, refused, unless, out};
ghost use Rattle.disk.specs.Check.{check_disk};
ghost use Rattle.plans.specs.Plan.{changed};
ghost use Rattle.saves.specs.Write.{save_request};
ghost use Rattle.record_calls.specs.Calls.{opening_bytes, pieced, add_piece_bytes, close_bytes};

use refusals::{Reason, Refused};

// Opens a recording: its record comes to the front of `kept`.
pub fn open(
    image: &[u8],
    kind: usize,
    name: &[u8],
    page: usize,
    offset: usize,
    exec: &[u8],
    info: &[u8],
    kept: &mut [u8],
) -> Result<usize, Refused>
    ensures { out (outcome_of result) kept.new ≡ opening_bytes (save_request kind name.now page offset exec.now info.now []) image.now kept.old }
{
    let opened = record_open::open(image, kind, name, page, offset, exec, info);
    // Not by `?`, which would lay the record on the stack twice more.
    match &opened {
        Err(r) => Err(*r),
        Ok(record) => {
            let room = kept.len();
            if room < record_bytes::RECORD_BYTES {
                return refusals::refuse(Reason::BufferTooShort, 0);
            }
            record_bytes::put_opened(kept, record);
            Ok(0)
        }
    }
}

// Of a record that is too short to be one: what the check refuses comes first.
fn too_short(image: &[u8]) -> Result<usize, Refused>
    ensures { outcome_of result ≡ unless (check_disk image.now) (refused (refuse 20 0)) }
{
    disk::check(image)?;
    refusals::refuse(Reason::BufferTooShort, 0)
}

// Adds a piece to the recording whose record `kept` is: how many sectors, and their numbers to the front of the list.
pub fn add(
    image: &mut [u8],
    piece: &[u8],
    kept: &mut [u8],
    list: &mut [u8],
) -> Result<usize, Refused>
    ensures { pieced (outcome_of result) image.new kept.new list.new ≡ add_piece_bytes piece.now image.old kept.old list.old }
{
    if kept.len() < record_bytes::RECORD_BYTES {
        return too_short(image);
    }
    let mut held = record_bytes::record_in(kept);
    let added = byte_lists::add_piece(image, &mut held, piece, list)?;
    record_bytes::put_grown(kept, &held);
    Ok(added)
}

// Closes the recording whose record `kept` is: how many sectors, and their numbers to the front of the list.
pub fn close(image: &mut [u8], kept: &[u8], list: &mut [u8]) -> Result<usize, Refused>
    ensures { changed (outcome_of result) image.new list.new ≡ close_bytes image.old kept.now list.old }
{
    if kept.len() < record_bytes::RECORD_BYTES {
        return too_short(image);
    }
    let held = record_bytes::record_in(kept);
    byte_lists::close(image, &held, list)
}
