// Points of document 02: a scattered file gathered. A descending chain, runs at the middle and at the end of the disk, one that is a
// bit short, a hole that is large enough only with the file's own sectors, files that are left, and short lists.
#![tactic(auto)]

fn gathered(what: &[u8], image: &mut [u8], name: &[u8], list: &mut [u16]) {
    points::title(b"gather of ", what);
    let answer = gathers::gather(image, name, list);
    points::print_change(answer, list);
}

// Two numbers for two data sectors and one of the directory, and none where nothing must move.
fn short_lists(image: &mut [u8]) {
    let mut list = [7u16; 2];
    gathered(b"it with a list of 2", image, b"FILE B", &mut list);
    points::line(b"the list: ", points::listed_at(&list, 0));
    let mut none = [7u16; 1];
    gathered(b"FILE A with no list", image, b"FILE A", &mut none[..0]);
}

// FILE A lies on bits 0 and 1, FILE B on bit 3 and then bit 2.
fn two_files(image: &mut [u8], buf: &mut [u8]) {
    points::disks::file_a(image);
    points::disks::file_b(image);
    points::read(b"a descending chain", image, b"FILE B", buf);
    short_lists(image);
}

fn descending(image: &mut [u8], buf: &mut [u8], list: &mut [u16]) {
    gathered(b"a descending chain", image, b"FILE B", list);
    points::read(b"a descending chain", image, b"FILE B", buf);
}

fn left(image: &mut [u8], list: &mut [u16]) {
    gathered(b"it again", image, b"file b", list);
    gathered(b"FILE A", image, b"FILE A", list);
    points::checked(b"the disk", image);
}

// 12, 15, and 13 of a directory in slot 3.
fn refused(image: &mut [u8], list: &mut [u16]) {
    buffers::copy_into(image, 512, b"\x15FOLDER    ");
    gathered(b"a name of eleven bytes", image, b"FILE AFILEA", list);
    gathered(b"no such name", image, b"FILE D", list);
    gathered(b"a directory", image, b"FOLDER", list);
}

// A file of one sector among others, and one on bits 0 and 2, which erased files left.
fn of_one_sector(image: &mut [u8], body: &[u8], list: &mut [u16]) {
    points::saved(b"ONE", image, b"ONE", buffers::part_at(body, 0, 501), list);
    points::saved(b"TWO", image, b"TWO", buffers::part_at(body, 0, 501), list);
    points::saved(
        b"THREE",
        image,
        b"THREE",
        buffers::part_at(body, 0, 501),
        list,
    );
    gathered(b"a file of one sector", image, b"TWO", list);
}

fn scattered(image: &mut [u8], body: &[u8], list: &mut [u16]) {
    points::erased(image, b"ONE", list);
    points::erased(image, b"THREE", list);
    points::saved(
        b"WIDE",
        image,
        b"WIDE",
        buffers::part_at(body, 0, 1011),
        list,
    );
}

// All bits are taken but those from 759 on: the run goes from the first side to the second.
fn middle(image: &mut [u8], body: &[u8], buf: &mut [u8], list: &mut [u16]) {
    points::saved(
        b"FIRST SIDE",
        image,
        b"FIRST SIDE",
        buffers::part_at(body, 0, 385551),
        list,
    );
    points::read(b"WIDE", image, b"WIDE", buf);
    gathered(b"WIDE", image, b"WIDE", list);
    points::read(b"WIDE", image, b"WIDE", buf);
    points::checked(b"the disk", image);
}

// Another file on bits 0 and 2, and only the last bit is free.
fn one_bit_short(image: &mut [u8], body: &[u8], list: &mut [u16]) {
    points::saved(
        b"AGAIN",
        image,
        b"AGAIN",
        buffers::part_at(body, 0, 1011),
        list,
    );
    points::saved(
        b"SIDE 2",
        image,
        b"SIDE 2",
        buffers::part_at(body, 0, 406461),
        list,
    );
    points::saved(
        b"LAST BUT 1",
        image,
        b"LAST BUT 1",
        buffers::part_at(body, 0, 501),
        list,
    );
    gathered(b"AGAIN, one bit short", image, b"AGAIN", list);
}

// Then the last two are.
fn end(image: &mut [u8], buf: &mut [u8], list: &mut [u16]) {
    points::erased(image, b"LAST BUT 1", list);
    gathered(b"AGAIN", image, b"AGAIN", list);
    points::read(b"AGAIN", image, b"AGAIN", buf);
    points::checked(b"the disk", image);
}

// A third on bits 0 and 2, on a disk that is full but for bit 1 between them.
fn own_sectors(image: &mut [u8], body: &[u8], buf: &mut [u8], list: &mut [u16]) {
    points::saved(
        b"THIRD",
        image,
        b"THIRD",
        buffers::part_at(body, 0, 1011),
        list,
    );
    points::erased(image, b"TWO", list);
    gathered(b"THIRD, around its own hole", image, b"THIRD", list);
    points::listed(b"the disk", image, buf);
}

fn small(buf: &mut [u8]) {
    let mut image = points::blank();
    let mut list = [7u16; 8];
    two_files(&mut image, buf);
    descending(&mut image, buf, &mut list);
    left(&mut image, &mut list);
    refused(&mut image, &mut list);
}

fn gaps(image: &mut [u8], body: &[u8], list: &mut [u16]) {
    of_one_sector(image, body, list);
    scattered(image, body, list);
}

fn ends(image: &mut [u8], body: &[u8], buf: &mut [u8], list: &mut [u16]) {
    middle(image, body, buf, list);
    one_bit_short(image, body, list);
    end(image, buf, list);
    own_sectors(image, body, buf, list);
}

fn large(body: &[u8], buf: &mut [u8]) {
    let mut image = points::blank();
    let mut list = [0u16; 1562];
    gaps(&mut image, body, &mut list);
    ends(&mut image, body, buf, &mut list);
}

fn main() {
    let mut body = points::blank();
    let mut buf = points::blank();
    points::mark_body(&mut body, b"HEAD", b"MIDDLE!");
    buffers::copy_into(&mut buf, 501, b".......");
    small(&mut buf);
    large(&body, &mut buf);
}
