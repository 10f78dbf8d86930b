// Points of document 02: the release check beside the first, on disks built from the document's own numbers.
#![tactic(auto)]

ghost use Rattle.std.specs.Prelude.{◌<◌};

// What each check says of a disk.
fn both(what: &[u8], image: &[u8]) {
    points::checked(what, image);
    points::released(what, image);
}

// Both checks of a disk with two bytes changed, which are then put back.
fn changed(what: &[u8], image: &mut [u8], at: usize, one: u8, two: u8)
    requires { at < 819200 }
{
    let old = points::exchange(image, at, [one, two]);
    both(what, image);
    points::exchange(image, at, old);
}

// Slot 1, 2 sectors: track 4, sectors 1 and 2, which are map bits 0 and 1.
fn slot_a(image: &mut [u8]) {
    let rest = [0, 2, 4, 1, 3];
    let start = [29, 0, 128];
    buffers::copy_into(image, 1, b"FILE A    ");
    buffers::copy_into(image, 11, &rest);
    buffers::copy_into(image, 236, &start);
}

fn sectors_a(image: &mut [u8]) {
    let header = [0, 0, 0, 0, 128, 0, 0, 0, 29];
    let link = [4, 2];
    buffers::copy_into(image, 40960, &header);
    buffers::copy_into(image, 40969, b"HEAD");
    buffers::copy_into(image, 41470, &link);
}

// Its kind, in the slot and in the header.
fn kind_a(image: &mut [u8], kind: u8) {
    let byte = [kind];
    buffers::copy_into(image, 0, &byte);
    buffers::copy_into(image, 40960, &byte);
}

// Its length, in the slot and in the header.
fn length_a(image: &mut [u8], low: u8, high: u8) {
    let bytes = [low, high];
    buffers::copy_into(image, 240, &bytes);
    buffers::copy_into(image, 40961, &bytes);
}

// Slot 2, 2 sectors: track 4, sectors 3 and 4, which are map bits 2 and 3.
fn slot_b(image: &mut [u8]) {
    let rest = [0, 2, 4, 3, 12];
    let link = [4, 4];
    buffers::copy_into(image, 257, b"FILE B    ");
    buffers::copy_into(image, 267, &rest);
    buffers::copy_into(image, 42494, &link);
}

fn kind_b(image: &mut [u8], kind: u8) {
    let byte = [kind];
    buffers::copy_into(image, 256, &byte);
    buffers::copy_into(image, 41984, &byte);
}

fn length_b(image: &mut [u8], low: u8, high: u8) {
    let bytes = [low, high];
    buffers::copy_into(image, 496, &bytes);
    buffers::copy_into(image, 41985, &bytes);
}

fn of_length(what: &[u8], image: &mut [u8], low: u8, high: u8) {
    length_a(image, low, high);
    both(what, image);
}

fn of_kind(what: &[u8], image: &mut [u8], kind: u8) {
    kind_a(image, kind);
    both(what, image);
}

// 510 × 2 bytes less nine hold 1,011, and 510 less nine hold 501.
fn lengths(image: &mut [u8]) {
    of_length(b"1012 bytes in 2 sectors", image, 244, 3);
    of_length(b"1011 bytes in 2 sectors", image, 243, 3);
    of_length(b"502 bytes in 2 sectors", image, 246, 1);
    of_length(b"501 bytes in 2 sectors", image, 245, 1);
    of_length(b"0 bytes in 2 sectors", image, 0, 0);
}

fn in_one_sector(image: &mut [u8]) {
    let one = [0, 1, 4, 1, 1];
    let two = [0, 2, 4, 1, 3];
    let none = [0, 0];
    buffers::copy_into(image, 11, &one);
    buffers::copy_into(image, 41470, &none);
    of_length(b"501 bytes in 1 sector", image, 245, 1);
    of_length(b"0 bytes in 1 sector", image, 0, 0);
    buffers::copy_into(image, 11, &two);
    buffers::copy_into(image, 41470, b"\x04\x02");
}

// "Other calls accept such disks still."
fn other_calls(image: &[u8]) {
    let mut list = [0u8; 258];
    let mut body = [b'.'; 512];
    points::listed(b"waste behind a file", image, &mut list);
    points::read(b"waste behind a file", image, b"FILE A", &mut body);
    points::started(b"waste behind a file", image, b"FILE A");
}

fn kinds(image: &mut [u8]) {
    of_kind(b"waste, kind 12", image, 12);
    of_kind(b"waste, kind 16", image, 16);
    of_kind(b"waste, kind 20", image, 20);
    of_kind(b"waste, kind 21", image, 21);
    of_kind(b"waste, kind 19", image, 19);
}

fn marks(image: &mut [u8]) {
    changed(b"waste, hidden and protected", image, 0, 211, b'F');
    changed(b"waste, erased", image, 0, 0, b'F');
}

// Slot 1 with waste, and another fault.
fn first_slot(image: &mut [u8]) {
    changed(b"6 and 22 at slot 1", image, 13, 4, 5);
    changed(b"22 at slot 1, 2 at slot 2", image, 256, 13, b'F');
    changed(b"22 at slot 1, 7 at slot 2", image, 496, 244, 3);
    changed(b"10 and 22 at slot 1", image, 41982, 4, 1);
    changed(b"11 and 22 at slot 1", image, 40960, 16, 0);
}

// Slot 2 with waste, and another fault.
fn second_slot(image: &mut [u8]) {
    changed(b"8 and 22 at slot 2", image, 271, 6, 0);
    changed(b"9 and 22 at slot 2", image, 262, b'A', b' ');
    changed(b"7 at slot 1, 22 at slot 2", image, 240, 244, 3);
    changed(b"10 at slot 1, 22 at slot 2", image, 41982, 4, 1);
}

// Neither with waste, and another fault.
fn no_waste(image: &mut [u8]) {
    changed(b"8 at slot 2", image, 271, 6, 0);
    changed(b"10 at slot 2", image, 43006, 4, 3);
    changed(b"11 at slot 2", image, 41984, 16, 246);
}

fn one_file(image: &mut [u8]) {
    slot_a(image);
    sectors_a(image);
    kind_a(image, 19);
    lengths(image);
    in_one_sector(image);
}

fn one_file_with_waste(image: &mut [u8]) {
    of_length(b"one file with waste", image, 245, 1);
    other_calls(image);
    kinds(image);
    marks(image);
}

fn two_files(image: &mut [u8]) {
    slot_b(image);
    kind_b(image, 19);
    both(b"22 at slots 1 and 2", image);
    first_slot(image);
}

fn second_with_waste(image: &mut [u8]) {
    of_length(b"22 at slot 2", image, 246, 1);
    second_slot(image);
    kind_b(image, 5);
    both(b"waste behind a kind not carried alone", image);
    kind_b(image, 19);
}

fn none_with_waste(image: &mut [u8]) {
    length_b(image, 246, 1);
    both(b"two files with no waste", image);
    no_waste(image);
    both(b"an image of no bytes", b"");
}

fn main() {
    let mut image = points::blank();
    both(b"an empty disk", &image);
    one_file(&mut image);
    one_file_with_waste(&mut image);
    two_files(&mut image);
    second_with_waste(&mut image);
    none_with_waste(&mut image);
}
