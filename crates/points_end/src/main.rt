// Points of document 02: where the directory ends. A disk with rubbish in every slot gets an end at slots 1, 2, 20, 21 and 80,
// and a save there; and behind an end stands a slot with each fault that the check knows.
#![tactic(auto)]

ghost use Rattle.std.specs.Prelude.{◌<◌};

// A file in slot `i`, counted from 0: its sector is that of map bit 100 + i, and its name has two letters.
fn file(image: &mut [u8], i: usize)
    requires { i < 80 }
{
    let letters = [b'A' + (i / 10) as u8, b'A' + (i % 10) as u8];
    points::disks::small_file(image, i, 100 + i, &letters);
}

// Such files from one slot up to another.
fn files(image: &mut [u8], from: usize, to: usize) {
    for i in from..to.min(80) {
        file(image, i);
    }
}

// Kind 63, which is not known, and a name in every slot.
fn rubbish_everywhere(image: &mut [u8]) {
    for i in 0..80 {
        rubbish(image, directory::slot_place(i));
    }
}

fn saved(what: &[u8], image: &mut [u8], name: &[u8], list: &mut [u16]) {
    points::saved_as(what, image, points::BASIC, name, b"", list);
}

// The first bytes of slot `i`, counted from 0. Where 81 would be lies the data sector of NEW 2, at track 4 sector 2.
fn slot_bytes(image: &[u8], i: usize) {
    let s = directory::slot_at(image, i);
    points::three(
        b"the next slot's bytes: ",
        buffers::num_at(s, 0),
        buffers::num_at(s, 1),
        buffers::num_at(s, 2),
    );
}

// The end at slot `i`, counted from 0, whose byte 0 is rubbish: before it files alone. Then a save there.
fn end_at(what: &[u8], image: &mut [u8], i: usize, name: &[u8], buf: &mut [u8])
    requires { i < 80 }
{
    let mut list = [0u16; 3];
    points::checked(what, image);
    points::set(image, directory::slot_place(i) + 1, 0);
    points::say(b"with no name there: ");
    points::checked(what, image);
    points::listed(what, image, buf);
    slot_bytes(image, i + 1);
    saved(name, image, name, &mut list);
    slot_bytes(image, i + 1);
    points::listed(name, image, buf);
}

// A name and rubbish in the slot at that place again.
fn rubbish(image: &mut [u8], at: usize) {
    buffers::copy_into(image, at, b"\x3f-");
}

fn first_ends(image: &mut [u8], buf: &mut [u8]) {
    end_at(b"rubbish in slot 1", image, 0, b"NEW 1", buf);
    rubbish(image, 256);
    end_at(b"rubbish in slot 2", image, 1, b"NEW 2", buf);
}

fn ends_of_a_track(image: &mut [u8], buf: &mut [u8]) {
    files(image, 2, 19);
    end_at(b"rubbish in slot 20", image, 19, b"NEW 20", buf);
    rubbish(image, 10240);
    end_at(b"rubbish in slot 21", image, 20, b"NEW 21", buf);
}

fn last_end(image: &mut [u8], buf: &mut [u8]) {
    files(image, 21, 79);
    end_at(b"rubbish in slot 80", image, 79, b"NEW 80", buf);
}

// With no end and no slot erased; and the same with slot 5 erased, where its name is still found by nobody.
fn no_end(image: &mut [u8]) {
    let mut list = [0u16; 3];
    saved(b"one file more", image, b"NEW 81", &mut list);
    points::set(image, 1024, 0);
    saved(b"one file more, slot 5 erased", image, b"NEW 81", &mut list);
}

// A list that is one number too short for the sector behind the end, and one that is just long enough.
fn short_list(image: &mut [u8]) {
    let mut less = [7u16; 2];
    saved(b"a file with a list of 2", image, b"NEW", &mut less);
    let mut just = [7u16; 3];
    saved(b"a file with a list of 3", image, b"NEW", &mut just);
}

// Slot 2 is the end, and slot 3 has no name either: it is left as it is.
fn no_name_behind(image: &mut [u8], list: &mut [u16]) {
    points::set(image, 512, 255);
    points::set(image, 514, 255);
    saved(b"a file before a slot with no name", image, b"NEW", list);
    slot_bytes(image, 2);
}

// Slot 3 is the end, with a name behind it, and slot 1 is erased.
fn erased_before_the_end(image: &mut [u8], list: &mut [u16]) {
    points::set(image, 0, 0);
    points::set(image, 769, b'-');
    saved(b"a file into an erased slot", image, b"NEW 2", list);
    slot_bytes(image, 3);
}

fn third(image: &mut [u8], kind: u8, name: &[u8], rest: &[u8]) {
    points::set(image, 512, kind);
    buffers::copy_into(image, 513, name);
    buffers::copy_into(image, 523, rest);
}

// Slot 3 behind an end at slot 2, and with a name in slot 2.
fn behind(what: &[u8], image: &mut [u8], kind: u8, name: &[u8], rest: &[u8]) {
    third(image, kind, name, rest);
    points::say(b"behind the end: ");
    points::checked(what, image);
    points::set(image, 257, b'-');
    points::say(b"before it: ");
    points::checked(what, image);
    points::set(image, 257, 0);
}

// The same under the release check: a carried file with a sector more than its length needs.
fn waste(image: &mut [u8]) {
    third(image, 19, b"RUBBISH   ", b"\x00\x02\x04\x05\x30");
    points::say(b"behind the end: ");
    points::released(b"246 bytes in 2 sectors", image);
    points::set(image, 257, b'-');
    points::say(b"before it: ");
    points::released(b"246 bytes in 2 sectors", image);
    points::set(image, 257, 0);
}

// Each fault of a slot in turn: count, first address and the first map bytes. Bit 4 is track 4 sector 5.
fn faults_of_a_slot(image: &mut [u8]) {
    behind(
        b"kind 13",
        image,
        13,
        b"RUBBISH   ",
        b"\x00\x01\x04\x05\x10",
    );
    behind(b"count 0", image, 5, b"RUBBISH   ", b"\x00\x00\x04\x05\x10");
    behind(
        b"two bits",
        image,
        5,
        b"RUBBISH   ",
        b"\x00\x01\x04\x05\x30",
    );
    behind(
        b"first address 3 1",
        image,
        5,
        b"RUBBISH   ",
        b"\x00\x01\x03\x01\x10",
    );
}

fn faults_of_files(image: &mut [u8]) {
    points::set(image, 752, 246);
    points::set(image, 753, 1);
    behind(
        b"length 502 in 1 sector",
        image,
        19,
        b"RUBBISH   ",
        b"\x00\x01\x04\x05\x10",
    );
    points::set(image, 753, 0);
    behind(
        b"the sector of slot 1",
        image,
        5,
        b"RUBBISH   ",
        b"\x00\x01\x04\x01\x01",
    );
    behind(
        b"the name of slot 1",
        image,
        5,
        b"FIRST     ",
        b"\x00\x01\x04\x05\x10",
    );
}

fn faults_of_chains(image: &mut [u8]) {
    behind(
        b"a header of kind 0",
        image,
        19,
        b"RUBBISH   ",
        b"\x00\x01\x04\x05\x10",
    );
    points::set(image, 43009, 246);
    points::set(image, 43010, 1);
    behind(
        b"length 502 of kind 4 in 1 sector",
        image,
        4,
        b"RUBBISH   ",
        b"\x00\x01\x04\x05\x10",
    );
    points::set(image, 43518, 9);
    behind(
        b"a last link 9 0",
        image,
        5,
        b"RUBBISH   ",
        b"\x00\x01\x04\x05\x10",
    );
}

fn faults(image: &mut [u8]) {
    let mut list = [0u16; 3];
    saved(b"a first file", image, b"FIRST", &mut list);
    faults_of_a_slot(image);
    faults_of_files(image);
    waste(image);
    faults_of_chains(image);
}

fn every_end() {
    let mut image = points::blank();
    let mut buf = points::blank();
    rubbish_everywhere(&mut image);
    first_ends(&mut image, &mut buf);
    ends_of_a_track(&mut image, &mut buf);
    last_end(&mut image, &mut buf);
    no_end(&mut image);
}

fn short_lists() {
    let mut image = points::blank();
    file(&mut image, 0);
    points::set(&mut image, 513, b'-');
    short_list(&mut image);
}

fn other_ends() {
    let mut image = points::blank();
    let mut list = [0u16; 3];
    file(&mut image, 0);
    no_name_behind(&mut image, &mut list);
    erased_before_the_end(&mut image, &mut list);
    points::checked(b"the disk", &image);
}

fn every_fault() {
    let mut image = points::blank();
    faults(&mut image);
}

fn main() {
    every_end();
    short_lists();
    other_ends();
    every_fault();
}
