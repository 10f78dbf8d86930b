// Points of document 01: save, up to the largest body that a disk holds.
#![tactic(auto)]

use allocation::HeaderFields;

// The largest body that a disk holds, and the next.
fn largest(image: &mut [u8], body: &[u8], list: &mut [u16]) {
    points::saved(
        b"795592 bytes",
        image,
        b"BIG",
        buffers::part_at(body, 0, 795592),
        list,
    );
    points::saved(
        b"795591 bytes",
        image,
        b"BIG",
        buffers::part_at(body, 0, 795591),
        list,
    );
    points::saved(b"no bytes on a full disk", image, b"FILE A", b"", list);
}

// The same read back, and erased.
fn largest_back(image: &mut [u8], buf: &mut [u8], list: &mut [u16]) {
    points::read(b"BIG", image, b"BIG", buf);
    points::started(b"BIG", image, b"BIG");
    points::erased(image, b"BIG", list);
    points::read(b"BIG", image, b"BIG", buf);
    points::listed(b"the disk", image, buf);
}

// Where slot 1 and its first sector say how long the file is.
fn length_bytes(image: &[u8]) {
    points::three(
        b"slot bytes 239 to 241: ",
        buffers::num_at(image, 239),
        buffers::num_at(image, 240),
        buffers::num_at(image, 241),
    );
    points::three(
        b"header bytes 1, 2 and 7: ",
        buffers::num_at(image, 40961),
        buffers::num_at(image, 40962),
        buffers::num_at(image, 40967),
    );
}

// Length 16,384 is pages 1, remainder 0.
fn one_page(image: &mut [u8], body: &[u8], buf: &mut [u8], list: &mut [u16]) {
    points::saved(
        b"16384 bytes",
        image,
        b"PAGE",
        buffers::part_at(body, 0, 16384),
        list,
    );
    length_bytes(image);
    points::read(b"PAGE", image, b"PAGE", buf);
    points::erased(image, b"PAGE", list);
}

fn unfit_names(image: &mut [u8], list: &mut [u16]) {
    points::saved(b"a name from a space", image, b" FILE", b"", list);
    points::saved(b"a name of 11 bytes", image, b"ELEVENBYTES", b"", list);
}

fn unfit_start(
    what: &[u8],
    image: &mut [u8],
    kind: usize,
    page: usize,
    offset: usize,
    list: &mut [u16],
) {
    let file = HeaderFields { kind, page, offset };
    points::saved_as(what, image, file, b"FILE X", b"", list);
}

fn unfit(image: &mut [u8], list: &mut [u16]) {
    unfit_start(b"kind 21", image, 21, 0, 32768, list);
    unfit_start(b"page 32", image, 16, 32, 32768, list);
    unfit_start(b"offset 49152", image, 16, 0, 49152, list);
}

// One number fewer than a save names.
fn short_list(image: &mut [u8]) {
    let mut list = [7u16; 1];
    points::saved(
        b"no bytes with a list of 1",
        image,
        b"FILE X",
        b"",
        &mut list,
    );
    points::line(b"the list: ", points::listed_at(&list, 0));
}

// What is refused, on a disk of one file.
fn refused(image: &mut [u8]) {
    let mut list = [0u16; 8];
    points::saved(b"no bytes", image, b"FILE A", b"", &mut list);
    points::saved(b"a name that is live", image, b"FILE A", b"", &mut list);
    unfit_names(image, &mut list);
    unfit(image, &mut list);
    short_list(image);
}

fn accepted(image: &mut [u8], body: &[u8], buf: &mut [u8]) {
    let mut list = [0u16; 1562];
    largest(image, body, &mut list);
    largest_back(image, buf, &mut list);
    one_page(image, body, buf, &mut list);
}

fn main() {
    let mut image = points::blank();
    let mut body = points::blank();
    let mut buf = points::blank();
    points::mark_body(&mut body, b"HEAD", b"MIDDLE!");
    accepted(&mut image, &body, &mut buf);
    refused(&mut image);
}
