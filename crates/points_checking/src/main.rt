// Points of document 01: disks that the check refuses, and those that it only just accepts, by one change of two bytes for each.
#![tactic(auto)]

ghost use Rattle.std.specs.Prelude.{◌<◌};

// The check of a disk with two bytes changed, which are then put back.
fn changed(what: &[u8], image: &mut [u8], at: usize, one: u8, two: u8)
    requires { at < 819200 }
{
    let old = points::exchange(image, at, [one, two]);
    points::checked(what, image);
    points::exchange(image, at, old);
}

fn kinds(image: &mut [u8]) {
    changed(b"kind 13", image, 0, 13, b'F');
    changed(b"kind 24", image, 0, 24, b'F');
    changed(b"kind 0 protected", image, 0, 64, b'F');
    changed(b"kind 63 at 10240", image, 10240, 63, b'F');
}

fn names_and_counts(image: &mut [u8]) {
    changed(b"no name at slot 1", image, 1, 0, b'I');
    changed(b"count 0", image, 11, 0, 0);
    changed(b"count 1560", image, 11, 6, 24);
    changed(b"count 1561", image, 11, 6, 25);
    changed(b"the count low byte first", image, 11, 2, 0);
}

fn maps_of_slots(image: &mut [u8]) {
    changed(b"a map of 1 bit", image, 15, 1, 0);
    changed(b"a map of 3 bits", image, 15, 19, 0);
    changed(b"a sector shared", image, 271, 9, 0);
    changed(b"a name twice", image, 262, b'A', b' ');
}

fn firsts_and_lengths(image: &mut [u8]) {
    changed(b"a first sector in the directory", image, 13, 3, 1);
    changed(b"a first sector 0", image, 13, 4, 0);
    changed(b"a first sector not in the map", image, 13, 4, 5);
    changed(b"length 1012 in 2 sectors", image, 240, 244, 3);
    changed(b"length 1011 in 2 sectors", image, 240, 243, 3);
}

fn links(image: &mut [u8]) {
    changed(b"two sectors linked to each other", image, 41982, 4, 1);
    changed(b"a sector linked to itself", image, 41470, 4, 1);
    changed(b"a chain through another file", image, 41470, 4, 3);
    changed(b"a chain into the directory", image, 41470, 3, 1);
}

fn ends(image: &mut [u8]) {
    changed(b"a chain that ends early", image, 41470, 0, 0);
    changed(b"a last link 0 1", image, 41982, 0, 1);
    changed(b"a last link 4 0", image, 41982, 4, 0);
}

fn headers(image: &mut [u8]) {
    changed(b"a header of kind 16", image, 40960, 16, 249);
    changed(b"a header with the protected bit", image, 40960, 83, 249);
    changed(b"a header of length 504", image, 40961, 248, 1);
    changed(b"a header of 1 page", image, 40967, 1, 29);
}

// What of a header is not compared.
fn other_headers(image: &mut [u8]) {
    changed(b"a header with bits 14 and 15", image, 40961, 249, 193);
    changed(b"a header of another offset", image, 40963, 255, 255);
    changed(b"a header of another page", image, 40967, 0, 30);
}

// Four sectors in the map, and a chain that goes round in the first two.
fn loop_of_two(image: &mut [u8]) {
    points::set(image, 12, 4);
    points::set(image, 15, 51);
    changed(b"a loop of two sectors", image, 41982, 4, 1);
    changed(
        b"a chain of four sectors that ends at three",
        image,
        41982,
        4,
        5,
    );
    points::set(image, 12, 2);
    points::set(image, 15, 3);
}

// Two faults on one disk: which comes first.
fn order_of_rows(image: &mut [u8]) {
    changed(b"kind 13 and no name at slot 1", image, 0, 13, 0);
    points::set(image, 15, 1);
    changed(b"5 at slot 1, no name at slot 2", image, 257, 0, b'I');
    points::set(image, 15, 3);
}

fn order_of_passes(image: &mut [u8]) {
    points::set(image, 41982, 4);
    changed(b"10 at slot 1, 2 at slot 21", image, 10240, 63, b'F');
    points::set(image, 41982, 0);
    points::set(image, 40960, 16);
    changed(b"11 at slot 1, 10 at slot 2", image, 42494, 4, 4);
    points::set(image, 40960, 19);
}

fn slot_damages(image: &mut [u8]) {
    kinds(image);
    names_and_counts(image);
    maps_of_slots(image);
    firsts_and_lengths(image);
}

fn chain_damages(image: &mut [u8]) {
    links(image);
    ends(image);
    loop_of_two(image);
    headers(image);
    other_headers(image);
}

fn orders(image: &mut [u8]) {
    order_of_rows(image);
    order_of_passes(image);
    points::checked(b"the disk as it was", image);
}

// Three files, and an erased slot with rubbish, which is then live.
fn files(image: &mut [u8]) {
    points::disks::file_a(image);
    points::disks::file_b(image);
    points::disks::file_c(image);
    points::disks::rubbish(image);
    changed(b"an erased slot live", image, 512, 19, 255);
}

// One file in all sectors, and its length by one too great.
fn full(image: &mut [u8]) {
    points::disks::full(image);
    changed(b"length 795592 in 1560 sectors", image, 240, 200, 35);
}

fn main() {
    let mut image = points::blank();
    files(&mut image);
    slot_damages(&mut image);
    chain_damages(&mut image);
    orders(&mut image);
    full(&mut image);
}
