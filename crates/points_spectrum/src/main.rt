// Points of document 02's M-107: files of kinds 1 to 4, whose header has their length and their start.
#![tactic(auto)]

use changes::Marking;
use refusals::Refused;

mod disks; // the disk that is tried

// Where the header of kind 4 has its length, and its start.
const LENGTH: usize = 41985;

const START: usize = 41987;

// The same in pieces: the length that opening answers, and the first four bytes.
fn played(what: &[u8], image: &[u8], name: &[u8]) {
    points::title(b"opening of ", what);
    match readers::begin(image, name) {
        Ok(p) => {
            points::number(b"left ", p.left);
            let mut buf = [b'.'; 4];
            let piece = readers::resume(image, p, &mut buf);
            points::number(b", came ", piece.came);
            points::say(b", ");
            points::say(&buf);
            points::say(b"\n");
        }
        Err(r) => points::refused(r),
    }
}

// All three calls that ask for a file by name.
fn asked(what: &[u8], image: &[u8], name: &[u8]) {
    points::read_dots(what, image, name);
    played(what, image, name);
    points::started(what, image, name);
}

fn kind(what: &[u8], image: &mut [u8], byte: u8) {
    points::set(image, 256, byte);
    asked(what, image, b"SPECTRUM");
}

// Each kind from 1 to 5 in slot 2, with every other byte the same.
fn kinds(image: &mut [u8]) {
    kind(b"kind 1", image, 1);
    kind(b"kind 2", image, 2);
    kind(b"kind 3", image, 3);
    kind(b"kind 4, hidden and protected", image, 196);
    kind(b"kind 5", image, 5);
}

// A carried kind there: then the length that the slot has is tested.
fn carried_kind(image: &mut [u8]) {
    points::set(image, 256, 16);
    points::checked(b"kind 16", image);
    points::set(image, 256, 4);
}

fn length(what: &[u8], image: &mut [u8], low: u8, high: u8) {
    points::exchange(image, LENGTH, [low, high]);
    points::checked(what, image);
    points::read_dots(what, image, b"SPECTRUM");
}

// 510 × 2 is 1,020, which 9 + 1,011 just reaches.
fn lengths(image: &mut [u8]) {
    length(b"length 0", image, 0, 0);
    length(b"length 1", image, 1, 0);
    length(b"length 501", image, 245, 1);
    length(b"length 1011 in 2 sectors", image, 243, 3);
}

// Row 25 is the check's, so every call gives it.
fn lengths_too_great(image: &mut [u8]) {
    length(b"length 1012 in 2 sectors", image, 244, 3);
    length(b"length 65535 in 2 sectors", image, 255, 255);
    played(b"length 65535 in 2 sectors", image, b"SPECTRUM");
    points::started(b"length 65535 in 2 sectors", image, b"SPECTRUM");
    points::exchange(image, LENGTH, [249, 1]);
}

fn start(what: &[u8], image: &mut [u8], low: u8, high: u8) {
    points::exchange(image, START, [low, high]);
    points::started(what, image, b"SPECTRUM");
}

fn starts(image: &mut [u8]) {
    start(b"a start 0", image, 0, 0);
    start(b"a start 513", image, 1, 2);
    start(b"a start 65535", image, 255, 255);
    points::exchange(image, START, [0, 64]);
}

// Buffers that are one byte short, and just long enough.
fn rooms(image: &[u8]) {
    let mut less = [b'.'; 504];
    points::read(b"505 bytes into 504", image, b"SPECTRUM", &mut less);
    let mut just = [b'.'; 505];
    points::read(b"505 bytes into 505", image, b"SPECTRUM", &mut just);
}

// The header's other bytes are not compared.
fn another_header(image: &mut [u8]) {
    points::set(image, 41984, 0);
    buffers::copy_into(image, 41989, b"\x00\x00\x00\x00");
    asked(b"another header", image, b"SPECTRUM");
}

// The check with two bytes of the disk changed, which are then put back to 0.
fn changed(what: &[u8], image: &mut [u8], at: usize, one: u8, two: u8) {
    if at < 819200 {
        points::exchange(image, at, [one, two]);
        points::checked(what, image);
        points::exchange(image, at, [0, 0]);
    }
}

// The last link of slot 2's file and of slot 3's, without 25 at slot 2 and with it: which comes first.
fn orders(image: &mut [u8]) {
    changed(b"10 at slot 2", image, 41982, 4, 3);
    points::exchange(image, LENGTH, [244, 3]);
    changed(b"10 and 25 at slot 2", image, 41982, 4, 3);
    changed(b"25 at slot 2", image, 41982, 0, 0);
    changed(b"25 at slot 2, 10 at slot 3", image, 43006, 4, 4);
}

// With 25 at slot 2 and 11 at slot 1.
fn orders_of_passes(image: &mut [u8]) {
    points::set(image, 40960, 16);
    changed(b"11 at slot 1, 25 at slot 2", image, 43006, 0, 0);
    points::set(image, 512, 63);
    changed(
        b"11 at slot 1, 25 at slot 2, 2 at slot 3",
        image,
        43006,
        0,
        0,
    );
}

fn put_back(image: &mut [u8]) {
    points::set(image, 512, 5);
    points::set(image, 40960, 19);
    points::exchange(image, LENGTH, [249, 1]);
    points::checked(b"the disk as it was", image);
}

fn told(answer: Result<usize, Refused>) {
    points::counted(b"sectors ", answer);
}

fn saved(what: &[u8], image: &mut [u8], kind: usize) {
    let mut list = [0u16; 8];
    points::title(b"save of ", what);
    told(saves::save(image, kind, b"NEW", 29, 32768, b"", b"", b"BODY", &mut list));
}

// Kinds 1 to 4 cannot be saved; another file leaves them as they are.
fn saves_of_kinds(image: &mut [u8]) {
    saved(b"kind 1", image, 1);
    saved(b"kind 4", image, 4);
    saved(b"kind 19", image, 19);
    asked(b"SPECTRUM", image, b"SPECTRUM");
}

fn renamed(image: &mut [u8]) {
    let mut list = [0u16; 1];
    points::title(b"rename of ", b"SPECTRUM");
    told(changes::rename(image, b"SPECTRUM", b"JET SET", &mut list));
}

fn marked(image: &mut [u8]) {
    let mut list = [0u16; 1];
    points::title(b"hide of ", b"JET SET");
    told(changes::set_mark(image, b"JET SET", Marking::Hide, &mut list));
    points::title(b"protect of ", b"JET SET");
    told(changes::set_mark(image, b"JET SET", Marking::Protect, &mut list));
}

// A new name and the marks leave the body and the start.
fn found_again(image: &mut [u8]) {
    renamed(image);
    marked(image);
    asked(b"JET SET", image, b"JET SET");
    asked(b"SPECTRUM", image, b"SPECTRUM");
}

fn files_of_all_kinds(image: &[u8]) {
    points::checked(b"kinds 19, 4 and 5", image);
    asked(b"CODE", image, b"CODE");
    asked(b"SPECTRUM", image, b"SPECTRUM");
    asked(b"OPENTYPE", image, b"OPENTYPE");
}

fn main() {
    let mut image = points::blank();
    disks::three_files(&mut image);
    files_of_all_kinds(&image);
    kinds(&mut image);
    carried_kind(&mut image);
    lengths(&mut image);
    lengths_too_great(&mut image);
    starts(&mut image);
    rooms(&image);
    another_header(&mut image);
    orders(&mut image);
    orders_of_passes(&mut image);
    put_back(&mut image);
    saves_of_kinds(&mut image);
    found_again(&mut image);
}
