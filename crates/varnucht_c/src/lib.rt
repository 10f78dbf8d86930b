// The exports for C: each is a call of `varnucht`, under its name and with its clauses. A byte slice is a pointer and then a length,
// and every answer is one number, refusal + 256 × slot + 2^24 × value + 2^48 × free.
#![tactic(auto)]

ghost use Rattle.std.specs.Prelude.{◌≡◌, [], length};
ghost use Rattle.packing.specs.Packed.{packed};
ghost use Rattle.files.specs.Calls.{listing, reading, start_address};
ghost use Rattle.readers.specs.Pieces.{read_place, piece_of, buffer_after};
ghost use Rattle.readers.specs.Opening.{open_file};
ghost use Rattle.plans.specs.Change.{save, erase, rename, mark, gather, hide, show, protect, release};
ghost use Rattle.saves.specs.Write.{save_request};
ghost use Rattle.byte_lists.specs.Trees.{tree_listing_bytes};
ghost use Rattle.report_bytes.specs.Bytes.{add_disk_bytes, join_reports_bytes};
ghost use Rattle.record_calls.specs.Calls.{opening_bytes};
ghost use Rattle.varnucht.specs.Calls.{check_call, check_release_call, raw_sector_call, ReturnsCall, ReturnsMany, ReturnsPiece, ReturnsClose};
ghost use Rattle.varnucht.specs.Reading.{packed_opening, packed_piece};

// The check.
#[unsafe(no_mangle)]
pub extern "C" fn varnucht_check(image: &[u8]) -> u64
    ensures { result ≡ packed (check_call image.now) }
{
    varnucht::varnucht_check(image)
}

// The release check: the check, which here also refuses a carried kind with more sectors than its length needs.
#[unsafe(no_mangle)]
pub extern "C" fn varnucht_check_release(image: &[u8]) -> u64
    ensures { result ≡ packed (check_release_call image.now) }
{
    varnucht::varnucht_check_release(image)
}

// The listing, put to the front of `out`: how many, and the free sectors.
#[unsafe(no_mangle)]
pub extern "C" fn varnucht_list(image: &[u8], out: &mut [u8]) -> u64
    ensures { (result ≡ packed (listing image.now out.old).outcome) × (out.new ≡ (listing image.now out.old).buffer) }
{
    varnucht::varnucht_list(image, out)
}

// A file's body, put to the front of `out`: its length.
#[unsafe(no_mangle)]
pub extern "C" fn varnucht_read(image: &[u8], name: &[u8], out: &mut [u8]) -> u64
    ensures { (result ≡ packed (reading image.now name.now out.old).outcome) × (out.new ≡ (reading image.now name.now out.old).buffer) }
{
    varnucht::varnucht_read(image, name, out)
}

// A file's start address.
#[unsafe(no_mangle)]
pub extern "C" fn varnucht_start(image: &[u8], name: &[u8]) -> u64
    ensures { result ≡ packed (start_address image.now name.now) }
{
    varnucht::varnucht_start(image, name)
}

// Opens a file by name: the body's length, and where its first byte stands.
#[unsafe(no_mangle)]
pub extern "C" fn varnucht_open(image: &[u8], name: &[u8]) -> u64
    ensures { result ≡ packed_opening (open_file image.now name.now) }
{
    varnucht::varnucht_open(image, name)
}

// The next bytes of an opened file, put to the front of `out`: how many came, and where the byte after them stands.
#[unsafe(no_mangle)]
pub extern "C" fn varnucht_next(
    image: &[u8],
    sector: u32,
    offset: u32,
    left: u32,
    out: &mut [u8],
) -> u64
    ensures { (result ≡ packed_piece (piece_of image.now (read_place sector offset left) (length out.old))) × (out.new ≡ buffer_after image.now (read_place sector offset left) out.old) }
{
    varnucht::varnucht_next(image, sector, offset, left, out)
}

// A raw sector: its place in the image of the drive asked for.
#[unsafe(no_mangle)]
pub extern "C" fn varnucht_sector(
    one: &[u8],
    two: &[u8],
    drive: u32,
    track: u32,
    sector: u32,
) -> u64
    ensures { result ≡ packed (raw_sector_call one.now two.now drive track sector) }
{
    varnucht::varnucht_sector(one, two, drive, track, sector)
}

// Erases a file: how many sectors, and their numbers to the front of the list.
#[unsafe(no_mangle)]
pub extern "C" fn varnucht_erase(image: &mut [u8], name: &[u8], list: &mut [u8]) -> u64
    ensures { ReturnsCall (erase name.now) image.old list.old result image.new list.new }
{
    varnucht::varnucht_erase(image, name, list)
}

// Gives a file a new name.
#[unsafe(no_mangle)]
pub extern "C" fn varnucht_rename(image: &mut [u8], name: &[u8], new: &[u8], list: &mut [u8]) -> u64
    ensures { ReturnsCall (rename name.now new.now) image.old list.old result image.new list.new }
{
    varnucht::varnucht_rename(image, name, new, list)
}

// Hides a file.
#[unsafe(no_mangle)]
pub extern "C" fn varnucht_hide(image: &mut [u8], name: &[u8], list: &mut [u8]) -> u64
    ensures { ReturnsCall (mark hide name.now) image.old list.old result image.new list.new }
{
    varnucht::varnucht_hide(image, name, list)
}

// Shows a hidden file.
#[unsafe(no_mangle)]
pub extern "C" fn varnucht_show(image: &mut [u8], name: &[u8], list: &mut [u8]) -> u64
    ensures { ReturnsCall (mark show name.now) image.old list.old result image.new list.new }
{
    varnucht::varnucht_show(image, name, list)
}

// Protects a file.
#[unsafe(no_mangle)]
pub extern "C" fn varnucht_protect(image: &mut [u8], name: &[u8], list: &mut [u8]) -> u64
    ensures { ReturnsCall (mark protect name.now) image.old list.old result image.new list.new }
{
    varnucht::varnucht_protect(image, name, list)
}

// Takes a file's protection away.
#[unsafe(no_mangle)]
pub extern "C" fn varnucht_release(image: &mut [u8], name: &[u8], list: &mut [u8]) -> u64
    ensures { ReturnsCall (mark release name.now) image.old list.old result image.new list.new }
{
    varnucht::varnucht_release(image, name, list)
}

// Saves a file.
#[unsafe(no_mangle)]
pub extern "C" fn varnucht_save(
    image: &mut [u8],
    kind: u32,
    name: &[u8],
    page: u32,
    offset: u32,
    exec: &[u8],
    info: &[u8],
    body: &[u8],
    list: &mut [u8],
) -> u64
    ensures { ReturnsCall (save (save_request kind name.now page offset exec.now info.now body.now)) image.old list.old result image.new list.new }
{
    varnucht::varnucht_save(image, kind, name, page, offset, exec, info, body, list)
}

// What lies beneath a directory, the root where the name is empty: how many, and their slots to the front of `list`.
#[unsafe(no_mangle)]
pub extern "C" fn varnucht_tree(image: &[u8], name: &[u8], list: &mut [u8]) -> u64
    ensures { (result ≡ packed (tree_listing_bytes image.now name.now list.old).outcome) × (list.new ≡ (tree_listing_bytes image.now name.now list.old).buffer) }
{
    varnucht::varnucht_tree(image, name, list)
}

// Adds a disk to a report: the disks in it after.
#[unsafe(no_mangle)]
pub extern "C" fn varnucht_report_add(image: &[u8], report: &mut [u8]) -> u64
    ensures { (result ≡ packed (add_disk_bytes report.old image.now).outcome) × (report.new ≡ (add_disk_bytes report.old image.now).buffer) }
{
    varnucht::varnucht_report_add(image, report)
}

// Joins another report to one: the disks in both.
#[unsafe(no_mangle)]
pub extern "C" fn varnucht_report_join(report: &mut [u8], other: &[u8]) -> u64
    ensures { (result ≡ packed (join_reports_bytes report.old other.now).outcome) × (report.new ≡ (join_reports_bytes report.old other.now).buffer) }
{
    varnucht::varnucht_report_join(report, other)
}

// Gathers a file: how many sectors, 0 where it lies on consecutive bits already, and their numbers to the front of the list.
#[unsafe(no_mangle)]
pub extern "C" fn varnucht_gather(image: &mut [u8], name: &[u8], list: &mut [u8]) -> u64
    ensures { ReturnsCall (gather name.now) image.old list.old result image.new list.new }
{
    varnucht::varnucht_gather(image, name, list)
}

// Erases an erase-many of files, their names of ten bytes each laid end to end: how many sectors, an answer of one byte to each name,
// 0 for done, and the numbers of the sectors, rising, to the front of `list`.
#[unsafe(no_mangle)]
pub extern "C" fn varnucht_erase_many(
    image: &mut [u8],
    names: &[u8],
    answers: &mut [u8],
    list: &mut [u8],
) -> u64
    ensures { ReturnsMany image.old names.now answers.old list.old result image.new answers.new list.new }
{
    varnucht::varnucht_erase_many(image, names, answers, list)
}

// Opens a recording with a save's particulars: its record, of 2,048 bytes, comes to the front of `kept`.
#[unsafe(no_mangle)]
pub extern "C" fn varnucht_record_open(
    image: &[u8],
    kind: u32,
    name: &[u8],
    page: u32,
    offset: u32,
    exec: &[u8],
    info: &[u8],
    kept: &mut [u8],
) -> u64
    ensures { (result ≡ packed (opening_bytes (save_request kind name.now page offset exec.now info.now []) image.now kept.old).outcome) × (kept.new ≡ (opening_bytes (save_request kind name.now page offset exec.now info.now []) image.now kept.old).buffer) }
{
    varnucht::varnucht_record_open(image, kind, name, page, offset, exec, info, kept)
}

// Adds a piece to a recording: how many sectors, and their numbers to the front of `list`. The record grows by it.
#[unsafe(no_mangle)]
pub extern "C" fn varnucht_record_add(
    image: &mut [u8],
    piece: &[u8],
    kept: &mut [u8],
    list: &mut [u8],
) -> u64
    ensures { ReturnsPiece piece.now image.old kept.old list.old result image.new kept.new list.new }
{
    varnucht::varnucht_record_add(image, piece, kept, list)
}

// Closes a recording: how many sectors, and their numbers to the front of `list`. The record stays as it is.
#[unsafe(no_mangle)]
pub extern "C" fn varnucht_record_close(image: &mut [u8], kept: &[u8], list: &mut [u8]) -> u64
    ensures { ReturnsClose image.old kept.now list.old result image.new list.new }
{
    varnucht::varnucht_record_close(image, kept, list)
}
