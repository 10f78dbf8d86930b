// The disks that the programs try. Those of document 01 are built from the document's own numbers, and not by the arithmetic that
// they try; only the links of a chain, and the slots and the sectors of many files, are the library's.
ghost use Rattle.std.specs.Prelude.{◌<◌};

use geometry::Address;

// A slot's first bytes: kind, name, and then the count, the first address and the map's first byte.
pub fn entry(image: &mut [u8], at: usize, kind: u8, name: &[u8], rest: &[u8]) {
    crate::set(image, at, kind);
    buffers::copy_into(image, at.saturating_add(1), name);
    buffers::copy_into(image, at.saturating_add(11), rest);
}

// A slot's start page 29 and offset 32,768, and its length of 505: one sector's 501 bytes and four more.
fn start_and_length(image: &mut [u8], at: usize)
    requires { at < 40960 }
{
    let bytes = [29, 0, 128, 0, 249, 1];
    buffers::copy_into(image, at + 236, &bytes);
}

// The first sector of such a file: the header, four bytes of the body, the link.
fn first_sector(image: &mut [u8], at: usize, text: &[u8], link: &[u8])
    requires { at < 819200 }
{
    let header = [19, 249, 1, 0, 128, 0, 0, 0, 29];
    buffers::copy_into(image, at, &header);
    buffers::copy_into(image, at + 9, text);
    buffers::copy_into(image, at + 510, link);
}

// Slot 1: track 4, sectors 1 and 2, which are map bits 0 and 1.
pub fn file_a(image: &mut [u8]) {
    let rest = [0, 2, 4, 1, 3];
    entry(image, 0, 19, b"FILE A    ", &rest);
    start_and_length(image, 0);
    let link = [4, 2];
    first_sector(image, 40960, b"HEAD", &link);
    buffers::copy_into(image, 41472, b"TAIL");
}

// Slot 2: track 4, sector 4 and then sector 3, which are map bits 3 and 2.
pub fn file_b(image: &mut [u8]) {
    let rest = [0, 2, 4, 4, 12];
    entry(image, 256, 19, b"FILE B    ", &rest);
    start_and_length(image, 256);
    let link = [4, 3];
    first_sector(image, 42496, b"HIGH", &link);
    buffers::copy_into(image, 41984, b"LOW!");
}

// A first name byte in slots 3 to 20, which are erased: the directory goes on there.
fn names_to_20(image: &mut [u8]) {
    for i in 2..20 {
        crate::set(image, 256 * i + 1, b'-');
    }
}

// Slot 21, of kind 5, which cannot be read: track 128, sector 1, which is map bit 760. Its bytes stand at 5,120.
pub fn file_c(image: &mut [u8]) {
    names_to_20(image);
    let rest = [0, 1, 128, 1, 0];
    entry(image, 10240, 5, b"FILE C    ", &rest);
    crate::set(image, 10350, 1);
    buffers::copy_into(image, 5120, b"CCCC");
}

// Slot 3, erased, with every other byte 255: a name, a count and a map that are nobody's.
pub fn rubbish(image: &mut [u8]) {
    let bytes = [255u8; 255];
    buffers::copy_into(image, 513, &bytes);
}

// Every data sector linked to that of the next map bit; the last, and that before bit `count`, to none.
pub fn chain(image: &mut [u8], count: usize) {
    for bit in 0..1560 {
        let next = if bit + 1 == count {
            None
        } else {
            geometry::address_of(bit + 1)
        };
        let to = next.unwrap_or(Address {
            track: 0,
            sector: 0,
        });
        crate::link(image, geometry::bit_place(bit), to.track, to.sector);
    }
}

// One file of 795,591 bytes, 48 pages and 9,159, in all 1,560 sectors; the other slots erased.
pub fn full(image: &mut [u8]) {
    crate::set(image, 256, 0);
    crate::set(image, 10240, 0);
    let rest = [6, 24, 4, 1];
    entry(image, 0, 19, b"FULL      ", &rest);
    let map = [255u8; 195];
    buffers::copy_into(image, 15, &map);
    let length = [0, 0, 128, 48, 199, 35];
    buffers::copy_into(image, 236, &length);
    let header = [19, 199, 35, 0, 128, 0, 0, 48, 0];
    buffers::copy_into(image, 40960, &header);
    chain(image, 1560);
}

// A file of kind 5 in slot `i`, counted from 0: one sector, that of map bit `bit`, and a name of these letters.
pub fn small_file(image: &mut [u8], i: usize, bit: usize, letters: &[u8]) {
    let at = directory::slot_place(i);
    let mut map = [0u8; 195];
    maps::set_bit(&mut map, bit);
    buffers::copy_into(image, at, b"\x05          \x00\x01");
    buffers::copy_into(image, at + 1, letters);
    buffers::copy_into(image, at + 15, &map);
    if let Some(first) = geometry::address_of(bit) {
        crate::set(image, at + 13, crate::low(first.track));
        crate::set(image, at + 14, crate::low(first.sector));
    }
}

// The same with a name of three letters, AAA in slot 0.
pub fn lettered_file(image: &mut [u8], i: usize, bit: usize) {
    let letters = [
        b'A' + (i / 100 % 10) as u8,
        b'A' + (i / 10 % 10) as u8,
        b'A' + (i % 10) as u8,
    ];
    small_file(image, i, bit, &letters);
}

// Such files in all slots before slot `to`, at the map bits from 350 on.
pub fn many_files(image: &mut [u8], to: usize) {
    for i in 0..to.min(778) {
        lettered_file(image, i, 350 + i);
    }
}
