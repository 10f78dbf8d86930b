// Opening a recording: what a save with an empty body refuses, but for its list; else the record, with nothing in it yet.
#![tactic(auto)]

ghost use Rattle.std.specs.Prelude.{◌≡◌, [], IfOk};
ghost use Rattle.refusals.specs.Answers.{reply_of};
ghost use Rattle.recordings.specs.Calls.{open_recording_reply, opened_record};
ghost use Rattle.saves.specs.Write.{save_request};
ghost use Rattle.record_open.specs.Fresh.{fresh_for};

use allocation::HeaderFields;
use recordings::Record;
use refusals::{Reason, Refused, refuse};
use surveys::UsedMap;

// The record of a recording in which nothing is yet, on a disk whose used map is `used`.
fn fresh(start: HeaderFields, name: &[u8], exec: &[u8], info: &[u8], used: UsedMap) -> Record
    ensures { result ≡ fresh_for start name.now exec.now info.now used }
{
    let filled = names::padded_name(name);
    let mut runs = [0u8; 3];
    buffers::copy_into(&mut runs, 0, exec);
    let mut told = [0u8; 11];
    buffers::copy_into(&mut told, 0, info);
    let bytes = used.bytes;
    Record {
        kind: start.kind,
        name: filled,
        page: start.page,
        offset: start.offset,
        exec: runs,
        info: told,
        used: bytes,
        tracks: used.tracks,
        long: 0,
        first: [0u8; 501],
        last: [0u8; 510],
    }
}

// Opens a recording: the record, with nothing in it yet.
pub fn open(
    image: &[u8],
    kind: usize,
    name: &[u8],
    page: usize,
    offset: usize,
    exec: &[u8],
    info: &[u8],
) -> Result<Record, Refused>
    ensures reply { reply_of result ≡ open_recording_reply (save_request kind name.now page offset exec.now info.now []) image.now }
    ensures opened { IfOk result (λ k. k ≡ opened_record (save_request kind name.now page offset exec.now info.now []) image.now) }
{
    let used = disk::examine(image)?.used;
    let start = HeaderFields { kind, page, offset };
    allocation::slot_for(image, start, name)?;
    if surveys::free_of(used) < 1 {
        return refuse(Reason::TooFewSectors, 0);
    }
    Ok(fresh(start, name, exec, info, used))
}
