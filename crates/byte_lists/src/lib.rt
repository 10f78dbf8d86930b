// The changes for the app's C layer, with the list of sectors as bytes, two to a number, low byte first; and the listing of a
// directory with its slots so.
#![tactic(auto)]

ghost use Rattle.std.specs.Prelude.{◌≡◌, ◌+◌, ◌*◌, ◌/◌, ◌≤◌, [], ◌∷◌, length, take};
ghost use Rattle.buffers.specs.Bytes.{put};
ghost use Rattle.refusals.specs.Answers.{outcome_of, out};
ghost use Rattle.plans.specs.Change.{save, erase, rename, mark, gather};
ghost use Rattle.plans.specs.Gathered.{run_sectors};
ghost use Rattle.changes.specs.Marks.{mark_of};
ghost use Rattle.saves.specs.Write.{save_request};
ghost use Rattle.gathers.specs.Call.{moved_sectors, MoveInRange};
ghost use Rattle.byte_lists.specs.Lists.{in_bytes, ReturnsByteChange};
ghost use Rattle.byte_lists.specs.Trees.{tree_listing_bytes};
ghost use Rattle.erase_many.specs.EraseMany.{erased};
ghost use Rattle.byte_lists.specs.EraseMany.{erase_many_bytes, operation_bytes};
ghost use Rattle.operations.specs.Operations.{record_piece, record_close};
ghost use Rattle.plans.specs.Plan.{changed};
ghost use Rattle.recordings.specs.Record.{recording_of};
ghost use Rattle.recordings.specs.Calls.{added_record};

use changes::Marking;
use gathers::Move;
use recordings::Record;
use refusals::Refused;

// Puts a number as the two bytes of the place `j` of a list, low byte first.
fn put_pair(list: &mut [u8], j: usize, number: u16)
    requires { 2 * j + 2 ≤ length list.old }
    ensures { list.new ≡ put list.old (2 * j) (in_bytes (number ∷ [])) }
{
    let pair = number.to_le_bytes();
    list[2 * j] = pair[0];
    list[2 * j + 1] = pair[1];
}

// Puts the first `n` of the numbers to the front of a list, two bytes each, low byte first.
fn put_numbers(list: &mut [u8], numbers: &[u16], n: usize)
    requires { (n ≤ length numbers.now) × (2 * n ≤ length list.old) }
    ensures { list.new ≡ put list.old 0 (in_bytes (take n numbers.now)) }
{
    for j in 0..n {
        put_pair(list, j, numbers[j]);
    }
}

// Erases a file: how many sectors, and their numbers to the front of the list.
pub fn erase(image: &mut [u8], name: &[u8], list: &mut [u8]) -> Result<usize, Refused>
    ensures { ReturnsByteChange (erase name.now) image.old list.old result image.new list.new }
{
    let mut numbers = [0u16; 1];
    let room = (list.len() / 2).min(1);
    let erased = changes::erase(image, name, &mut numbers[..room])?;
    put_numbers(list, &numbers, erased);
    Ok(erased)
}

// Gives a file a new name.
pub fn rename(image: &mut [u8], name: &[u8], new: &[u8], list: &mut [u8]) -> Result<usize, Refused>
    ensures { ReturnsByteChange (rename name.now new.now) image.old list.old result image.new list.new }
{
    let mut numbers = [0u16; 1];
    let room = (list.len() / 2).min(1);
    let renamed = changes::rename(image, name, new, &mut numbers[..room])?;
    put_numbers(list, &numbers, renamed);
    Ok(renamed)
}

// Sets or clears one of a file's two marks.
pub fn set_mark(
    image: &mut [u8],
    name: &[u8],
    marking: Marking,
    list: &mut [u8],
) -> Result<usize, Refused>
    ensures { ReturnsByteChange (mark (mark_of marking) name.now) image.old list.old result image.new list.new }
{
    let mut numbers = [0u16; 1];
    let room = (list.len() / 2).min(1);
    let marked = changes::set_mark(image, name, marking, &mut numbers[..room])?;
    put_numbers(list, &numbers, marked);
    Ok(marked)
}

// Saves a file.
pub fn save(
    image: &mut [u8],
    kind: usize,
    name: &[u8],
    page: usize,
    offset: usize,
    exec: &[u8],
    info: &[u8],
    body: &[u8],
    list: &mut [u8],
) -> Result<usize, Refused>
    ensures { ReturnsByteChange (save (save_request kind name.now page offset exec.now info.now body.now)) image.old list.old result image.new list.new }
{
    // Room for the numbers of every save: 1,560 data sectors, and those of the directory.
    let mut numbers = [0u16; 1562];
    let room = (list.len() / 2).min(1562);
    let saved = saves::save(
        image,
        kind,
        name,
        page,
        offset,
        exec,
        info,
        body,
        &mut numbers[..room],
    )?;
    put_numbers(list, &numbers, saved);
    Ok(saved)
}

// What lies beneath a directory: how many, and their slots to the front of the list.
pub fn list_tree(image: &[u8], name: &[u8], list: &mut [u8]) -> Result<usize, Refused>
    ensures { out (outcome_of result) list.new ≡ tree_listing_bytes image.now name.now list.old }
{
    let mut numbers = [0u16; directory::SLOTS];
    let room = (list.len() / 2).min(directory::SLOTS);
    let listed = tree_lists::list_tree(image, name, &mut numbers[..room])?;
    put_numbers(list, &numbers, listed);
    Ok(listed)
}

// Puts the sector numbers of the `n` map bits from `b` on to the front of a list, two bytes each, low byte first.
fn put_run(list: &mut [u8], n: usize, b: usize)
    requires { (2 * n ≤ length list.old) × (b + n ≤ 1560) }
    ensures { list.new ≡ put list.old 0 (in_bytes (run_sectors n b)) }
{
    for j in 0..n {
        put_pair(list, j, (geometry::bit_place(b + j) / 512) as u16);
    }
}

// The same of a file that was moved, with its directory sector last.
fn put_moved(list: &mut [u8], to: Move)
    requires { MoveInRange to (length list.old / 2) }
    ensures { list.new ≡ put list.old 0 (in_bytes (moved_sectors to)) }
{
    put_run(list, to.count, to.bit);
    put_pair(list, to.count, directory::dir_sector(to.slot) as u16);
}

// Gathers a file: how many sectors, and their numbers to the front of the list. They are told by where the file went, so that no
// room for them is taken here.
pub fn gather(image: &mut [u8], name: &[u8], list: &mut [u8]) -> Result<usize, Refused>
    ensures { ReturnsByteChange (gather name.now) image.old list.old result image.new list.new }
{
    let room = list.len() / 2;
    match gathers::gather_in(image, name, room)? {
        None => Ok(0),
        Some(to) => {
            put_moved(list, to);
            Ok(to.count + 1)
        }
    }
}

// Erases an erase-many of files, their names of ten bytes each laid end to end: how many sectors, an answer to each name, and the
// numbers of the sectors to the front of the list.
pub fn erase_many(
    image: &mut [u8],
    names: &[u8],
    answers: &mut [u8],
    list: &mut [u8],
) -> Result<usize, Refused>
    ensures { erased (outcome_of result) image.new answers.new list.new ≡ erase_many_bytes image.old names.now answers.old list.old }
{
    let mut numbers = [0u16; slot_erasing::DIR_SECTORS];
    let room = (list.len() / 2).min(slot_erasing::DIR_SECTORS);
    let emptied = erase_calls::erase_many(image, names, answers, &mut numbers[..room])?;
    put_numbers(list, &numbers, emptied);
    Ok(emptied)
}

// Adds a piece to a recording: how many sectors, their numbers to the front of the list, and the record.
pub fn add_piece(
    image: &mut [u8],
    kept: &mut Record,
    bytes: &[u8],
    list: &mut [u8],
) -> Result<usize, Refused>
    ensures { (changed (outcome_of result) image.new list.new ≡ operation_bytes (record_piece (recording_of kept.old) bytes.now) image.old list.old) × (kept.new ≡ added_record kept.old bytes.now image.old (length list.old / 2)) }
{
    // Room for the numbers of every piece: all but the first and the last of 1,560 sectors.
    let mut numbers = [0u16; 1558];
    let room = (list.len() / 2).min(1558);
    let added = record_add::add(image, kept, bytes, &mut numbers[..room])?;
    put_numbers(list, &numbers, added);
    Ok(added)
}

// Closes a recording: how many sectors, and their numbers to the front of the list.
pub fn close(image: &mut [u8], kept: &Record, list: &mut [u8]) -> Result<usize, Refused>
    ensures { changed (outcome_of result) image.new list.new ≡ operation_bytes (record_close (recording_of kept.now)) image.old list.old }
{
    let mut numbers = [0u16; 4];
    let room = (list.len() / 2).min(4);
    let closed = record_close::close(image, kept, &mut numbers[..room])?;
    put_numbers(list, &numbers, closed);
    Ok(closed)
}
