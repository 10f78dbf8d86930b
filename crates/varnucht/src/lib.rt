// The calls of the app's C layer, which `varnucht_c` exports: every answer is one number,
// refusal + 256 × slot + 2^24 × value + 2^48 × free.
#![tactic(auto)]

ghost use Rattle.std.specs.Prelude.{◌≡◌, [], length};
ghost use Rattle.packing.specs.Packed.{packed};
ghost use Rattle.files.specs.Calls.{listing, reading, start_address};
ghost use Rattle.readers.specs.Pieces.{read_place, piece_of, buffer_after};
ghost use Rattle.readers.specs.Opening.{open_file};
ghost use Rattle.plans.specs.Change.{save, erase, rename, mark, gather, hide, show, protect, release};
ghost use Rattle.changes.specs.Marks.{mark_of};
ghost use Rattle.saves.specs.Write.{save_request};
ghost use Rattle.byte_lists.specs.Trees.{tree_listing_bytes};
ghost use Rattle.report_bytes.specs.Bytes.{add_disk_bytes, join_reports_bytes};
ghost use Rattle.record_calls.specs.Calls.{opening_bytes};
ghost use Rattle.varnucht.specs.Calls.{check_call, check_release_call, raw_sector_call, ReturnsCall, ReturnsMany, ReturnsPiece, ReturnsClose};
ghost use Rattle.varnucht.specs.Reading.{packed_opening, packed_piece};

use changes::Marking;
use readers::Place;
use refusals::Refused;

// The check.
pub fn varnucht_check(image: &[u8]) -> u64
    ensures { result ≡ packed (check_call image.now) }
{
    packing::pack_verdict(disk::check(image))
}

// The release check: the check, which here also refuses a carried kind with more sectors than its length needs.
pub fn varnucht_check_release(image: &[u8]) -> u64
    ensures { result ≡ packed (check_release_call image.now) }
{
    packing::pack_verdict(disk::check_release(image))
}

// The listing, put to the front of `out`: how many, and the free sectors.
pub fn varnucht_list(image: &[u8], out: &mut [u8]) -> u64
    ensures { (result ≡ packed (listing image.now out.old).outcome) × (out.new ≡ (listing image.now out.old).buffer) }
{
    match files::list(image, out) {
        Ok(listed) => packing::pack_done(listed.files, listed.free),
        Err(r) => packing::pack_refused(r),
    }
}

// A file's body, put to the front of `out`: its length.
pub fn varnucht_read(image: &[u8], name: &[u8], out: &mut [u8]) -> u64
    ensures { (result ≡ packed (reading image.now name.now out.old).outcome) × (out.new ≡ (reading image.now name.now out.old).buffer) }
{
    let copied = files::read(image, name, out);
    packing::pack(copied)
}

// A file's start address.
pub fn varnucht_start(image: &[u8], name: &[u8]) -> u64
    ensures { result ≡ packed (start_address image.now name.now) }
{
    let started = files::start(image, name);
    packing::pack(started)
}

// Opens a file by name: the body's length, and where its first byte stands.
pub fn varnucht_open(image: &[u8], name: &[u8]) -> u64
    ensures { result ≡ packed_opening (open_file image.now name.now) }
{
    match readers::begin(image, name) {
        Ok(p) => packing::pack_place(p.sector, p.left, p.offset),
        Err(r) => packing::pack_refused(r),
    }
}

// The next bytes of an opened file, put to the front of `out`: how many came, and where the byte after them stands.
pub fn varnucht_next(image: &[u8], sector: u32, offset: u32, left: u32, out: &mut [u8]) -> u64
    ensures { (result ≡ packed_piece (piece_of image.now (read_place sector offset left) (length out.old))) × (out.new ≡ buffer_after image.now (read_place sector offset left) out.old) }
{
    let at = Place {
        sector: sector as usize,
        offset: offset as usize,
        left: left as usize,
    };
    let p = readers::resume(image, at, out);
    packing::pack_place(p.sector, p.came, p.offset)
}

// A raw sector: its place in the image of the drive asked for.
pub fn varnucht_sector(one: &[u8], two: &[u8], drive: u32, track: u32, sector: u32) -> u64
    ensures { result ≡ packed (raw_sector_call one.now two.now drive track sector) }
{
    match drives::raw_place(one, two, drive as usize, track as usize, sector as usize) {
        Ok(place) => packing::pack_done(place, 0),
        Err(reason) => packing::pack_refused(Refused { reason, slot: 0 }),
    }
}

// Erases a file: how many sectors, and their numbers to the front of the list.
pub fn varnucht_erase(image: &mut [u8], name: &[u8], list: &mut [u8]) -> u64
    ensures { ReturnsCall (erase name.now) image.old list.old result image.new list.new }
{
    let erased = byte_lists::erase(image, name, list);
    packing::pack(erased)
}

// Gives a file a new name.
pub fn varnucht_rename(image: &mut [u8], name: &[u8], new: &[u8], list: &mut [u8]) -> u64
    ensures { ReturnsCall (rename name.now new.now) image.old list.old result image.new list.new }
{
    let renamed = byte_lists::rename(image, name, new, list);
    packing::pack(renamed)
}

// Sets or clears one of a file's two marks.
fn mark(image: &mut [u8], name: &[u8], marking: Marking, list: &mut [u8]) -> u64
    ensures { ReturnsCall (mark (mark_of marking) name.now) image.old list.old result image.new list.new }
{
    let marked = byte_lists::set_mark(image, name, marking, list);
    packing::pack(marked)
}

// Hides a file.
pub fn varnucht_hide(image: &mut [u8], name: &[u8], list: &mut [u8]) -> u64
    ensures { ReturnsCall (mark hide name.now) image.old list.old result image.new list.new }
{
    mark(image, name, Marking::Hide, list)
}

// Shows a hidden file.
pub fn varnucht_show(image: &mut [u8], name: &[u8], list: &mut [u8]) -> u64
    ensures { ReturnsCall (mark show name.now) image.old list.old result image.new list.new }
{
    mark(image, name, Marking::Show, list)
}

// Protects a file.
pub fn varnucht_protect(image: &mut [u8], name: &[u8], list: &mut [u8]) -> u64
    ensures { ReturnsCall (mark protect name.now) image.old list.old result image.new list.new }
{
    mark(image, name, Marking::Protect, list)
}

// Takes a file's protection away.
pub fn varnucht_release(image: &mut [u8], name: &[u8], list: &mut [u8]) -> u64
    ensures { ReturnsCall (mark release name.now) image.old list.old result image.new list.new }
{
    mark(image, name, Marking::Release, list)
}

// Saves a file.
pub fn varnucht_save(
    image: &mut [u8],
    kind: u32,
    name: &[u8],
    page: u32,
    offset: u32,
    exec: &[u8],
    info: &[u8],
    body: &[u8],
    list: &mut [u8],
) -> u64
    ensures { ReturnsCall (save (save_request kind name.now page offset exec.now info.now body.now)) image.old list.old result image.new list.new }
{
    let saved = byte_lists::save(
        image,
        kind as usize,
        name,
        page as usize,
        offset as usize,
        exec,
        info,
        body,
        list,
    );
    packing::pack(saved)
}

// What lies beneath a directory, the root where the name is empty: how many, and their slots to the front of `list`.
pub fn varnucht_tree(image: &[u8], name: &[u8], list: &mut [u8]) -> u64
    ensures { (result ≡ packed (tree_listing_bytes image.now name.now list.old).outcome) × (list.new ≡ (tree_listing_bytes image.now name.now list.old).buffer) }
{
    let beneath = byte_lists::list_tree(image, name, list);
    packing::pack(beneath)
}

// Adds a disk to a report: the disks in it after.
pub fn varnucht_report_add(image: &[u8], report: &mut [u8]) -> u64
    ensures { (result ≡ packed (add_disk_bytes report.old image.now).outcome) × (report.new ≡ (add_disk_bytes report.old image.now).buffer) }
{
    let added = report_bytes::add(image, report);
    packing::pack(added)
}

// Joins another report to one: the disks in both.
pub fn varnucht_report_join(report: &mut [u8], other: &[u8]) -> u64
    ensures { (result ≡ packed (join_reports_bytes report.old other.now).outcome) × (report.new ≡ (join_reports_bytes report.old other.now).buffer) }
{
    let joined = report_bytes::join(report, other);
    packing::pack(joined)
}

// Gathers a file: how many sectors, 0 where it lies on consecutive bits already, and their numbers to the front of the list.
pub fn varnucht_gather(image: &mut [u8], name: &[u8], list: &mut [u8]) -> u64
    ensures { ReturnsCall (gather name.now) image.old list.old result image.new list.new }
{
    let gathered = byte_lists::gather(image, name, list);
    packing::pack(gathered)
}

// Erases an erase-many of files, their names of ten bytes each laid end to end: how many sectors, an answer of one byte to each name,
// 0 for done, and the numbers of the sectors, rising, to the front of `list`.
pub fn varnucht_erase_many(
    image: &mut [u8],
    names: &[u8],
    answers: &mut [u8],
    list: &mut [u8],
) -> u64
    ensures { ReturnsMany image.old names.now answers.old list.old result image.new answers.new list.new }
{
    let emptied = byte_lists::erase_many(image, names, answers, list);
    packing::pack(emptied)
}

// Opens a recording with a save's particulars: its record, of 2,048 bytes, comes to the front of `kept`.
pub fn varnucht_record_open(
    image: &[u8],
    kind: u32,
    name: &[u8],
    page: u32,
    offset: u32,
    exec: &[u8],
    info: &[u8],
    kept: &mut [u8],
) -> u64
    ensures { (result ≡ packed (opening_bytes (save_request kind name.now page offset exec.now info.now []) image.now kept.old).outcome) × (kept.new ≡ (opening_bytes (save_request kind name.now page offset exec.now info.now []) image.now kept.old).buffer) }
{
    let opened = record_calls::open(
        image,
        kind as usize,
        name,
        page as usize,
        offset as usize,
        exec,
        info,
        kept,
    );
    packing::pack(opened)
}

// Adds a piece to a recording: how many sectors, and their numbers to the front of `list`. The record grows by it.
pub fn varnucht_record_add(image: &mut [u8], piece: &[u8], kept: &mut [u8], list: &mut [u8]) -> u64
    ensures { ReturnsPiece piece.now image.old kept.old list.old result image.new kept.new list.new }
{
    let wrote = record_calls::add(image, piece, kept, list);
    packing::pack(wrote)
}

// Closes a recording: how many sectors, and their numbers to the front of `list`. The record stays as it is.
pub fn varnucht_record_close(image: &mut [u8], kept: &[u8], list: &mut [u8]) -> u64
    ensures { ReturnsClose image.old kept.now list.old result image.new list.new }
{
    let closed = record_calls::close(image, kept, list);
    packing::pack(closed)
}
