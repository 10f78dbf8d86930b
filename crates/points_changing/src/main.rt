// Points of document 01: erase, rename and the marks, and what a save takes of an erased file.
#![tactic(auto)]

use changes::Marking;

fn small(image: &mut [u8], body: &[u8], list: &mut [u16]) {
    points::saved(
        b"501 bytes",
        image,
        b"FILE A",
        buffers::part_at(body, 0, 501),
        list,
    );
    points::saved(
        b"502 bytes",
        image,
        b"FILE B",
        buffers::part_at(body, 0, 502),
        list,
    );
    points::checked(b"two files saved", image);
}

fn taken(image: &mut [u8], list: &mut [u16]) {
    points::renamed(image, b"FILE A", b" FILE C", list);
    points::renamed(image, b"FILE A", b"FILE C", list);
    points::renamed(image, b"FILE A", b"FILE B", list);
    points::renamed(image, b"FILE B", b"FILE B", list);
}

fn kept(image: &mut [u8], list: &mut [u16]) {
    points::marked(b"protect of ", image, b"FILE A", Marking::Protect, list);
    points::erased(image, b"FILE A", list);
    taken(image, list);
}

fn marks(image: &mut [u8], list: &mut [u16]) {
    points::marked(b"protect of ", image, b"FILE A", Marking::Protect, list);
    points::marked(b"release of ", image, b"FILE A", Marking::Release, list);
    points::marked(b"hide of ", image, b"FILE B", Marking::Hide, list);
    points::marked(b"show of ", image, b"FILE B", Marking::Show, list);
}

// What an erased file held is used again: its slot, and its sector before the next that is free.
fn used_again(image: &mut [u8], body: &[u8], list: &mut [u16]) {
    points::renamed(image, b"FILE A", b"FILE C", list);
    points::erased(image, b"FILE A", list);
    points::erased(image, b"FILE C", list);
    points::saved(
        b"502 bytes",
        image,
        b"FILE D",
        buffers::part_at(body, 0, 502),
        list,
    );
}

// A file in every slot that is free, the names AA to HJ.
fn fill(image: &mut [u8], list: &mut [u16]) {
    for i in 0..80 {
        let name = [b'A' + i / 10, b'A' + i % 10];
        let _ = saves::save(image, 16, &name, 0, 32768, b"", b"", b"", list);
    }
}

fn every_slot(image: &mut [u8], buf: &mut [u8], list: &mut [u16]) {
    fill(image, list);
    points::listed(b"a disk of 80 files", image, buf);
    points::saved(b"one file more", image, b"FILE X", b"", list);
}

fn files_saved(image: &mut [u8], body: &[u8]) {
    let mut list = [0u16; 8];
    small(image, body, &mut list);
}

fn changes_made(image: &mut [u8], body: &[u8], buf: &mut [u8]) {
    let mut list = [0u16; 8];
    kept(image, &mut list);
    marks(image, &mut list);
    used_again(image, body, &mut list);
    points::read(b"FILE D", image, b"FILE D", buf);
    every_slot(image, buf, &mut list);
}

fn main() {
    let mut image = points::blank();
    let mut body = points::blank();
    let mut buf = points::blank();
    points::mark_body(&mut body, b"HEAD", b"MIDDLE!");
    buffers::copy_into(&mut buf, 501, b".......");
    files_saved(&mut image, &body);
    changes_made(&mut image, &body, &mut buf);
}
