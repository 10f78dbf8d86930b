// What the programs of the documents' points share: the lines that they write, one for each call with its answer, and an
// empty disk. No contract can say what is written, so one that only writes states nothing.
#![tactic(auto)]

ghost use Rattle.std.specs.Prelude.{◌≡◌, ◌<◌, length, get_or, replicate};
ghost use Rattle.files.specs.Calls.{listing, reading};

use files::Listed;
use refusals::Refused;

mod calls; // the calls that change a disk, each with its line
pub mod disks; // disks of few files, and full ones

pub use calls::{BASIC, CODE, erased, erased_as, marked, renamed, saved, saved_as};

pub const LARGEST: usize = usize::MAX;

// An empty disk.
pub fn blank() -> [u8; 819200]
    ensures zeros { result ≡ replicate 819200 0 }
    ensures size { 819200 ≡ length result }
{
    [0; 819200]
}

// A byte of a lent buffer, where it has one there.
pub fn set(bytes: &mut [u8], at: usize, b: u8) {
    if at < bytes.len() {
        bytes[at] = b;
    }
}

pub fn low(n: usize) -> u8 {
    n.to_le_bytes()[0]
}

// The link of the sector at a place.
pub fn link(image: &mut [u8], at: usize, track: usize, sector: usize) {
    if at < 819200 {
        set(image, at + 510, low(track));
        set(image, at + 511, low(sector));
    }
}

// Two bytes at a place, and those that were there.
pub fn exchange(bytes: &mut [u8], at: usize, new: [u8; 2]) -> [u8; 2] {
    let old = [
        buffers::byte_at(bytes, at),
        buffers::byte_at(bytes, at.saturating_add(1)),
    ];
    buffers::copy_into(bytes, at, &new);
    old
}

// A body, whose first four bytes and whose seven where its second sector's begin can be told.
pub fn mark_body(body: &mut [u8], first: &[u8], second: &[u8]) {
    buffers::copy_into(body, 0, first);
    buffers::copy_into(body, 501, second);
}

pub fn say(text: &[u8]) {
    io::write_all(1, text);
}

pub fn number(before: &[u8], n: usize) {
    say(before);
    io::print_decimal(1, n as u64);
}

pub fn line(before: &[u8], n: usize) {
    number(before, n);
    say(b"\n");
}

pub fn refused(r: Refused) {
    number(b"refused ", r.reason.number());
    line(b" slot ", r.slot);
}

pub fn title(call: &[u8], what: &[u8]) {
    say(call);
    say(what);
    say(b": ");
}

// Whether a call was refused, and nothing of its answer else.
pub fn accepted<T: Drop>(answer: Result<T, Refused>) {
    match answer {
        Ok(_) => say(b"accepted\n"),
        Err(r) => refused(r),
    }
}

// What a call answers, after a word for it.
pub fn counted(before: &[u8], answer: Result<usize, Refused>) {
    match answer {
        Ok(n) => line(before, n),
        Err(r) => refused(r),
    }
}

pub fn checked(what: &[u8], image: &[u8]) {
    title(b"check of ", what);
    accepted(disk::check(image));
}

pub fn released(what: &[u8], image: &[u8]) {
    title(b"release check of ", what);
    accepted(disk::check_release(image));
}

fn files_and_free(answer: Result<Listed, Refused>) {
    match answer {
        Ok(found) => {
            number(b"files ", found.files);
            line(b", free ", found.free);
        }
        Err(r) => refused(r),
    }
}

pub fn listed(what: &[u8], image: &[u8], buf: &mut [u8])
    ensures { buf.new ≡ (listing image.now buf.old).buffer }
{
    title(b"listing of ", what);
    let answer = files::list(image, buf);
    files_and_free(answer);
}

pub fn started(what: &[u8], image: &[u8], name: &[u8]) {
    title(b"start of ", what);
    counted(b"", files::start(image, name));
}

// Four bytes of the body's front, and at 501, where the second sector's bytes begin, seven.
fn length_and_body(answer: Result<usize, Refused>, buf: &[u8]) {
    match answer {
        Ok(len) => {
            number(b"length ", len);
            say(b", from 0 ");
            say(buffers::part_at(buf, 0, 4));
            say(b", from 501 ");
            say(buffers::part_at(buf, 501, 7));
            say(b"\n");
        }
        Err(r) => refused(r),
    }
}

// Number `k` of a list, 0 past its end.
pub fn listed_at(list: &[u16], k: usize) -> usize
    ensures { result ≡ get_or list.now k 0 }
{
    usize::from(list.get(k).copied().unwrap_or(0))
}

pub fn three(before: &[u8], one: usize, two: usize, three: usize) {
    number(before, one);
    number(b" ", two);
    line(b" ", three);
}

// How many sectors a change names, and the front of its list as it then is.
pub fn print_change(answer: Result<usize, Refused>, list: &[u16]) {
    match answer {
        Ok(n) => {
            number(b"sectors ", n);
            three(
                b", list ",
                listed_at(list, 0),
                listed_at(list, 1),
                listed_at(list, 2),
            );
        }
        Err(r) => refused(r),
    }
}

pub fn read(what: &[u8], image: &[u8], name: &[u8], buf: &mut [u8])
    ensures { buf.new ≡ (reading image.now name.now buf.old).buffer }
{
    title(b"read of ", what);
    let answer = files::read(image, name, buf);
    length_and_body(answer, buf);
}

// A read into a buffer of dots, with room for more than two sectors.
pub fn read_dots(what: &[u8], image: &[u8], name: &[u8]) {
    let mut buf = [b'.'; 1100];
    read(what, image, name, &mut buf);
}
