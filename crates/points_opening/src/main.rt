// Points of document 01: listing, reading and start addresses.
#![tactic(auto)]

ghost use Rattle.std.specs.Prelude.{◌≡◌, length};

fn first_file(image: &mut [u8], buf: &mut [u8]) {
    points::checked(b"an empty disk", image);
    points::listed(b"an empty disk", image, buf);
    points::disks::file_a(image);
    points::checked(b"one file of 2 sectors", image);
    points::listed(b"one file of 2 sectors", image, buf);
    points::read_dots(b"one file of 2 sectors", image, b"FILE A");
}

fn second_file(image: &mut [u8], buf: &mut [u8]) {
    points::disks::file_b(image);
    points::checked(b"a chain that descends", image);
    points::listed(b"a chain that descends", image, buf);
    points::read_dots(b"a chain that descends", image, b"FILE B");
}

fn third_file(image: &mut [u8], buf: &mut [u8]) {
    points::disks::file_c(image);
    points::checked(b"a file in slot 21", image);
    points::listed(b"a file in slot 21", image, buf);
    points::number(b"slots of the listing: ", buffers::num_at(buf, 0));
    points::number(b" ", buffers::num_at(buf, 258));
    points::line(b" ", buffers::num_at(buf, 516));
}

fn rubbish_erased(image: &mut [u8], buf: &mut [u8]) {
    points::disks::rubbish(image);
    points::checked(b"an erased slot with rubbish", image);
    points::listed(b"an erased slot with rubbish", image, buf);
}

fn file_erased(image: &mut [u8], buf: &mut [u8]) {
    points::set(image, 256, 0);
    points::checked(b"slot 2 erased", image);
    points::listed(b"slot 2 erased", image, buf);
    points::read_dots(b"the file erased", image, b"FILE B");
    points::set(image, 256, 19);
}

fn file_hidden(image: &mut [u8], buf: &mut [u8]) {
    points::set(image, 0, 211);
    points::checked(b"a file hidden and protected", image);
    points::listed(b"a file hidden and protected", image, buf);
    points::set(image, 0, 19);
}

fn names(image: &[u8]) {
    points::read_dots(b"a name of 0 bytes", image, b"");
    points::read_dots(b"a name of 11 bytes", image, b"FILE A     ");
    points::read_dots(b"a name from byte 0", image, b"\x00ILE A");
    points::read_dots(b"a name of 10 bytes", image, b"FILE A    ");
    points::read_dots(b"a name no slot has", image, b"FILE D");
    points::read_dots(b"a part of a name", image, b"FILE");
    points::read_dots(b"a name in small letters", image, b"file a");
    points::read_dots(b"a kind that cannot be read", image, b"FILE C");
    points::started(b"a name of 11 bytes", image, b"FILE A     ");
    points::started(b"a name no slot has", image, b"FILE D");
    points::started(b"a kind that cannot be read", image, b"FILE C");
}

// Buffers that are one byte short, and those that are just long enough.
fn rooms(image: &[u8]) {
    let mut body_less = [b'.'; 504];
    points::read(b"505 bytes into 504", image, b"FILE A", &mut body_less);
    let mut body_just = [b'.'; 505];
    points::read(b"505 bytes into 505", image, b"FILE A", &mut body_just);
    let mut list_less = [0u8; 773];
    points::listed(b"3 files into 773 bytes", image, &mut list_less);
    let mut list_just = [0u8; 774];
    points::listed(b"3 files into 774 bytes", image, &mut list_just);
}

fn start_line(image: &mut [u8], page: u8, low: u8, high: u8) {
    points::set(image, 236, page);
    points::set(image, 237, low);
    points::set(image, 238, high);
    points::number(b"page byte ", usize::from(page));
    points::number(b", offset ", usize::from(u16::from_le_bytes([low, high])));
    points::say(b": ");
    points::started(b"FILE A", image, b"FILE A");
}

fn starts(image: &mut [u8]) {
    start_line(image, 31, 255, 191);
    start_line(image, 31, 0, 192);
    start_line(image, 0, 255, 127);
    start_line(image, 0, 0, 128);
    start_line(image, 255, 255, 191);
    start_line(image, 29, 0, 128);
}

fn wrong_length(what: &[u8], image: &[u8]) {
    let mut none = [0u8; 1];
    points::checked(what, image);
    points::listed(what, image, &mut none);
    points::read_dots(what, image, b"FILE A");
    points::started(what, image, b"FILE A");
}

fn too_long() -> [u8; 819201]
    ensures { 819201 ≡ length result }
{
    [0; 819201]
}

fn longer() {
    let image = too_long();
    wrong_length(b"an image one byte long", &image);
}

fn full_disk(image: &mut [u8], buf: &mut [u8]) {
    points::disks::full(image);
    points::checked(b"one file of 1560 sectors", image);
    points::listed(b"one file of 1560 sectors", image, buf);
}

fn disks_of_few_files(image: &mut [u8], buf: &mut [u8]) {
    first_file(image, buf);
    second_file(image, buf);
    third_file(image, buf);
    rubbish_erased(image, buf);
    file_erased(image, buf);
    file_hidden(image, buf);
}

fn lengths(image: &[u8]) {
    wrong_length(
        b"an image one byte short",
        buffers::part_at(image, 0, 819199),
    );
    wrong_length(b"an image of no bytes", b"");
    longer();
}

fn main() {
    let mut image = points::blank();
    let mut buf = points::blank();
    disks_of_few_files(&mut image, &mut buf);
    names(&image);
    rooms(&image);
    starts(&mut image);
    lengths(&image);
    full_disk(&mut image, &mut buf);
}
