// Points of document 02: directories of more than four tracks. What byte 255 of slot 1 says, where the slots past the gap lie,
// which map bits are data, what a save into slot 1 keeps, and a directory of 778 slots.
#![tactic(auto)]

// An empty disk with that byte.
fn tracks(what: &[u8], image: &mut [u8], n: u8, buf: &mut [u8]) {
    points::set(image, 255, n);
    points::checked(what, image);
    points::listed(what, image, buf);
}

// Slot `i`, counted from 0: its place and its sector.
fn placed(before: &[u8], i: usize) {
    points::number(before, directory::slot_place(i));
    points::line(b", sector ", directory::dir_sector(i));
}

// A file at that map bit, with one track beyond four.
fn at_bit(what: &[u8], image: &mut [u8], bit: usize) {
    points::disks::lettered_file(image, 0, bit);
    points::set(image, 255, 1);
    points::checked(what, image);
}

fn saved(what: &[u8], image: &mut [u8], name: &[u8]) {
    let mut list = [0u16; 3];
    points::saved_as(what, image, points::BASIC, name, b"body", &mut list);
}

fn erased(what: &[u8], image: &mut [u8], name: &[u8]) {
    let mut list = [0u16; 3];
    points::erased_as(what, image, name, &mut list);
}

// A body of four bytes.
fn read(what: &[u8], image: &[u8], name: &[u8]) {
    let mut body = [0u8; 4];
    points::title(b"read of ", what);
    match files::read(image, name, &mut body) {
        Ok(len) => {
            points::number(b"length ", len);
            points::say(b", bytes ");
            points::say(&body);
            points::say(b"\n");
        }
        Err(r) => points::refused(r),
    }
}

// Bytes 210 to 219, 252, 253 and 255 of slot 1.
fn label(image: &[u8]) {
    points::say(b"name ");
    points::say(buffers::part_at(image, 210, 10));
    points::three(
        b", then ",
        buffers::num_at(image, 252),
        buffers::num_at(image, 253),
        buffers::num_at(image, 255),
    );
}

fn numbers_of_tracks() {
    let mut image = points::blank();
    let mut buf = points::blank();
    tracks(b"0 tracks more", &mut image, 0, &mut buf);
    tracks(b"1 track more", &mut image, 1, &mut buf);
    tracks(b"35 tracks more", &mut image, 35, &mut buf);
    tracks(b"36", &mut image, 36, &mut buf);
    tracks(b"254", &mut image, 254, &mut buf);
    tracks(b"255", &mut image, 255, &mut buf);
}

fn places() {
    placed(b"slot 80 at ", 79);
    placed(b"slot 81 at ", 80);
    placed(b"slot 98 at ", 97);
    placed(b"slot 99 at ", 98);
    placed(b"slot 778 at ", 777);
}

fn map_bits() {
    let mut image = points::blank();
    at_bit(b"a file at bit 0", &mut image, 0);
    at_bit(b"a file at bit 1", &mut image, 1);
    at_bit(b"a file at bit 9", &mut image, 9);
    at_bit(b"a file at bit 10", &mut image, 10);
}

// Slot 1 is erased, and its bytes are the disk's still.
fn name_kept() {
    let mut image = points::blank();
    buffers::copy_into(&mut image, 210, b"SAM'S DISK");
    points::set(&mut image, 252, 17);
    points::set(&mut image, 253, 4);
    points::set(&mut image, 255, 1);
    saved(b"a file into slot 1", &mut image, b"FIRST");
    label(&image);
    erased(b"it", &mut image, b"FIRST");
    label(&image);
}

// 777 files: the next save takes slot 778, and the lowest data bit is that of track 4 sector 1.
fn a_full_directory() {
    let mut image = points::blank();
    let mut buf = points::blank();
    points::disks::many_files(&mut image, 777);
    points::set(&mut image, 255, 35);
    points::listed(b"777 files", &image, &mut buf);
    saved(b"one more", &mut image, b"LAST");
    points::listed(b"778 files", &image, &mut buf);
    read(b"the last", &image, b"LAST");
    saved(b"one too many", &mut image, b"NONE");
    erased(b"the last", &mut image, b"LAST");
    saved(b"another in its place", &mut image, b"OTHER");
    points::checked(b"the disk", &image);
}

fn main() {
    numbers_of_tracks();
    places();
    map_bits();
    name_kept();
    a_full_directory();
}
