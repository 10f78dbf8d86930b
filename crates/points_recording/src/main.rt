// Points of document 02: save while recording. Bodies about the ends of sectors in pieces of 1, 510 and 511 bytes and whole, and the
// largest in pieces of 4,096, each held to one save; and what may come between opening and close: a hide, a save, a save and its
// erase, a piece that is cut, another recording, and a rename that takes the name.
#![tactic(auto)]

ghost use Rattle.std.specs.Prelude.{◌≤◌};

use changes::Marking;
use recordings::Record;
use refusals::Refused;

// A recording of the kind and start of most programs' files.
fn opened(image: &[u8], name: &[u8]) -> Result<Record, Refused> {
    let file = points::CODE;
    record_open::open(image, file.kind, name, file.page, file.offset, b"", b"")
}

fn added(what: &[u8], image: &mut [u8], record: &mut Record, piece: &[u8], list: &mut [u16]) {
    points::title(b"a piece of ", what);
    let answer = record_add::add(image, record, piece, list);
    points::print_change(answer, list);
}

fn closed(what: &[u8], image: &mut [u8], record: &Record, list: &mut [u16]) {
    points::title(b"close of ", what);
    let answer = record_close::close(image, record, list);
    points::print_change(answer, list);
}

// ---- held to one save

// How many sectors a piece named; a refusal is told.
fn named(answer: Result<usize, Refused>) -> usize
    ensures { result ≤ 1562 }
{
    match answer {
        Ok(n) => n.min(1562),
        Err(r) => {
            points::refused(r);
            0
        }
    }
}

// A body added in pieces of `step` bytes, at most 2,048 of 4,096, and one where it has no bytes: how many sectors they named in all.
fn pieces(image: &mut [u8], record: &mut Record, body: &[u8], step: usize, list: &mut [u16]) {
    let n = step % 4097;
    let mut sectors: usize = 0;
    for k in 0..2048 {
        let at = k * n;
        if k != 0 && body.len() <= at {
            break;
        }
        sectors += named(record_add::add(image, record, buffers::part_at(body, at, n), list));
    }
    points::number(b" named ", sectors);
}

fn compared(image: &[u8], other: &[u8]) {
    if image == other {
        points::say(b", the disk is that of one save\n");
    } else {
        points::say(b", ANOTHER DISK\n");
    }
}

// Recorded on one empty disk in pieces, and saved whole on another.
fn recorded(body: &[u8], step: usize, list: &mut [u16]) -> Result<(), Refused> {
    let mut image = points::blank();
    points::number(b"", body.len());
    points::number(b" bytes in pieces of ", step);
    points::say(b":");
    let mut record = opened(&image, b"TAKE")?;
    pieces(&mut image, &mut record, body, step, list);
    let answer = record_close::close(&mut image, &record, list);
    points::number(b", at the close ", named(answer));
    one_save(&image, body, list);
    Ok(())
}

fn one_save(image: &[u8], body: &[u8], list: &mut [u16]) {
    let mut other = points::blank();
    let answer = saves::save(&mut other, 19, b"TAKE", 29, 32768, b"", b"", body, list);
    points::number(b", at one save ", named(answer));
    compared(image, &other);
}

fn in_pieces(body: &[u8], list: &mut [u16]) -> Result<(), Refused> {
    recorded(body, 1, list)?;
    recorded(body, 510, list)?;
    recorded(body, 511, list)?;
    recorded(body, 4096, list)
}

// One sector, just full; then two.
fn small(body: &[u8], list: &mut [u16]) -> Result<(), Refused> {
    in_pieces(b"", list)?;
    in_pieces(buffers::part_at(body, 0, 501), list)?;
    in_pieces(buffers::part_at(body, 0, 502), list)
}

// Two, just full; three; and all there are.
fn large(body: &[u8], list: &mut [u16]) -> Result<(), Refused> {
    in_pieces(buffers::part_at(body, 0, 1011), list)?;
    in_pieces(buffers::part_at(body, 0, 1012), list)?;
    recorded(buffers::part_at(body, 0, 795591), 4096, list)
}

fn bodies(body: &[u8], list: &mut [u16]) -> Result<(), Refused> {
    small(body, list)?;
    large(body, list)
}

// A list of one number for a piece of two sectors and for a close.
fn short_lists(image: &mut [u8], record: &mut Record, piece: &[u8]) {
    let mut list = [7u16; 1];
    added(
        b"2000 bytes, with a list of 1",
        image,
        record,
        piece,
        &mut list,
    );
    closed(b"TAKE, with a list of 1", image, record, &mut list);
    points::line(b"the list: ", points::listed_at(&list, 0));
}

fn empty_piece(image: &mut [u8], record: &mut Record, buf: &mut [u8], list: &mut [u16]) {
    added(b"no bytes", image, record, b"", list);
    ended(image, record, buf, list);
}

// One byte more than a disk holds, and short lists: the recording goes on without them.
fn refused(image: &mut [u8], body: &[u8], buf: &mut [u8], list: &mut [u16]) -> Result<(), Refused> {
    let mut record = opened(image, b"TAKE")?;
    let large = buffers::part_at(body, 0, 795592);
    added(b"795592 bytes", image, &mut record, large, list);
    short_lists(image, &mut record, buffers::part_at(body, 0, 2000));
    empty_piece(image, &mut record, buf, list);
    Ok(())
}

// ---- what comes between

fn renamed(image: &mut [u8], name: &[u8], new: &[u8], list: &mut [u16]) {
    points::title(b"rename to ", new);
    let answer = changes::rename(image, name, new, list);
    points::print_change(answer, list);
}

// A recording of 1,600 bytes, four sectors, of which the second and the third are written.
fn begun(
    what: &[u8],
    image: &mut [u8],
    name: &[u8],
    body: &[u8],
    list: &mut [u16],
) -> Result<Record, Refused> {
    let mut record = opened(image, name)?;
    let piece = buffers::part_at(body, 0, 1600);
    added(what, image, &mut record, piece, list);
    Ok(record)
}

// Closed, and read where it is a file then.
fn ended(image: &mut [u8], record: &Record, buf: &mut [u8], list: &mut [u16]) {
    closed(b"TAKE", image, record, list);
    points::read(b"TAKE", image, b"TAKE", buf);
    points::checked(b"the disk", image);
}

fn beside_other(image: &mut [u8], body: &[u8], list: &mut [u16]) -> Result<Record, Refused> {
    points::saved(b"OTHER", image, b"OTHER", b"", list);
    begun(b"1600 bytes", image, b"TAKE", body, list)
}

fn hidden_between(
    image: &mut [u8],
    body: &[u8],
    buf: &mut [u8],
    list: &mut [u16],
) -> Result<(), Refused> {
    let mut record = beside_other(image, body, list)?;
    points::marked(b"hide of ", image, b"OTHER", Marking::Hide, list);
    empty_piece(image, &mut record, buf, list);
    Ok(())
}

// Its sectors are the lowest free ones, and so are the recording's.
fn saved_between(
    image: &mut [u8],
    body: &[u8],
    buf: &mut [u8],
    list: &mut [u16],
) -> Result<(), Refused> {
    let mut record = begun(b"1600 bytes", image, b"TAKE", body, list)?;
    points::saved(b"LATE", image, b"LATE", b"", list);
    empty_piece(image, &mut record, buf, list);
    Ok(())
}

// A save of `len` bytes, and its erase: the used map is again what it was.
fn erased_between(
    image: &mut [u8],
    body: &[u8],
    late: &[u8],
    len: usize,
    buf: &mut [u8],
    list: &mut [u16],
) -> Result<(), Refused> {
    let record = begun(b"1600 bytes", image, b"TAKE", body, list)?;
    points::saved(
        b"LATE",
        image,
        b"LATE",
        buffers::part_at(late, 0, len),
        list,
    );
    points::erased(image, b"LATE", list);
    ended(image, &record, buf, list);
    Ok(())
}

fn after_erase(
    body: &[u8],
    late: &[u8],
    len: usize,
    buf: &mut [u8],
    list: &mut [u16],
) -> Result<(), Refused> {
    let mut image = points::blank();
    erased_between(&mut image, body, late, len, buf, list)
}

// One sector of LATE's lies over the recording's first, which is written at the close; two break a link; four have the same links.
fn all_erased(body: &[u8], late: &[u8], buf: &mut [u8], list: &mut [u16]) -> Result<(), Refused> {
    after_erase(body, late, 501, buf, list)?;
    after_erase(body, late, 1011, buf, list)?;
    after_erase(body, late, 1600, buf, list)
}

// The sectors of the piece were not written; on a disk where LATE was, they hold these links already.
fn cut_piece(
    image: &mut [u8],
    body: &[u8],
    buf: &mut [u8],
    list: &mut [u16],
) -> Result<(), Refused> {
    let mut whole = points::blank();
    buffers::copy_into(&mut whole, 0, image);
    let mut record = begun(b"1600 bytes", &mut whole, b"TAKE", body, list)?;
    added(b"one byte", image, &mut record, b"!", list);
    ended(image, &record, buf, list);
    Ok(())
}

fn all_cut(body: &[u8], late: &[u8], buf: &mut [u8], list: &mut [u16]) -> Result<(), Refused> {
    let mut image = points::blank();
    cut_piece(&mut image, body, buf, list)?;
    points::saved(
        b"LATE",
        &mut image,
        b"LATE",
        buffers::part_at(late, 0, 1600),
        list,
    );
    points::erased(&mut image, b"LATE", list);
    cut_piece(&mut image, body, buf, list)
}

// Both take the same sectors, until one is closed.
fn two_at_once(
    image: &mut [u8],
    body: &[u8],
    late: &[u8],
    buf: &mut [u8],
    list: &mut [u16],
) -> Result<(), Refused> {
    let first = begun(b"1600 bytes", image, b"TAKE", body, list)?;
    let mut second = begun(b"1600 more", image, b"SECOND", late, list)?;
    ended(image, &first, buf, list);
    added(b"no bytes", image, &mut second, b"", list);
    closed(b"SECOND", image, &second, list);
    Ok(())
}

fn taken(image: &mut [u8], record: &Record, list: &mut [u16]) {
    renamed(image, b"OTHER", b"take", list);
    closed(b"TAKE", image, record, list);
    renamed(image, b"TAKE", b"OTHER", list);
}

fn name_taken(
    image: &mut [u8],
    body: &[u8],
    buf: &mut [u8],
    list: &mut [u16],
) -> Result<(), Refused> {
    let record = beside_other(image, body, list)?;
    taken(image, &record, list);
    ended(image, &record, buf, list);
    Ok(())
}

fn marks(body: &[u8], buf: &mut [u8], list: &mut [u16]) -> Result<(), Refused> {
    let mut image = points::blank();
    hidden_between(&mut image, body, buf, list)
}

fn new_file(body: &[u8], buf: &mut [u8], list: &mut [u16]) -> Result<(), Refused> {
    let mut image = points::blank();
    saved_between(&mut image, body, buf, list)
}

fn two(body: &[u8], late: &[u8], buf: &mut [u8], list: &mut [u16]) -> Result<(), Refused> {
    let mut image = points::blank();
    two_at_once(&mut image, body, late, buf, list)
}

fn new_name(body: &[u8], buf: &mut [u8], list: &mut [u16]) -> Result<(), Refused> {
    let mut image = points::blank();
    name_taken(&mut image, body, buf, list)
}

fn written_over(body: &[u8], late: &[u8], buf: &mut [u8], list: &mut [u16]) -> Result<(), Refused> {
    all_erased(body, late, buf, list)?;
    all_cut(body, late, buf, list)?;
    two(body, late, buf, list)
}

fn between(body: &[u8], late: &[u8], buf: &mut [u8], list: &mut [u16]) -> Result<(), Refused> {
    marks(body, buf, list)?;
    new_file(body, buf, list)?;
    written_over(body, late, buf, list)?;
    new_name(body, buf, list)
}

fn alone(body: &[u8], buf: &mut [u8], list: &mut [u16]) -> Result<(), Refused> {
    let mut image = points::blank();
    refused(&mut image, body, buf, list)
}

// An opening that is refused, which none here is, ends the program.
fn tried(body: &[u8], late: &[u8], buf: &mut [u8], list: &mut [u16]) -> Result<(), Refused> {
    bodies(body, list)?;
    alone(body, buf, list)?;
    between(body, late, buf, list)
}

fn main() {
    let mut body = points::blank();
    let mut late = points::blank();
    let mut buf = points::blank();
    let mut list = [0u16; 1562];
    points::mark_body(&mut body, b"HEAD", b"MIDDLE!");
    points::mark_body(&mut late, b"LATE", b"LATER..");
    points::mark_body(&mut buf, b"....", b".......");
    if let Err(r) = tried(&body, &late, &mut buf, &mut list) {
        points::say(b"opening of a recording: ");
        points::refused(r);
    }
}
