// Points of document 02: erasing an erase-many at once. No name, one, one twice, two in one sector, all of 80 and of 778, names that
// are refused, whole calls that are, and a cut between a file and the directory that it was in.
#![tactic(auto)]

// Files in all slots before slot `to`, and their names end to end.
fn files(image: &mut [u8], names: &mut [u8], to: usize) {
    points::disks::many_files(image, to);
    for i in 0..to.min(778) {
        buffers::copy_into(names, 10 * i, slots::name_of(directory::slot_at(image, i)));
    }
}

// A directory in slot 1 and three files behind it, of which the one in slot `i`, counted from 0, is in it.
fn nested(image: &mut [u8], i: usize) {
    buffers::copy_into(image, 0, b"\x15FOLDER    ");
    points::set(image, 250, 9);
    points::disks::lettered_file(image, 1, 1);
    points::disks::lettered_file(image, 2, 2);
    points::disks::lettered_file(image, 3, 3);
    points::set(image, 510, 0);
    points::set(image, 1022, 0);
    points::set(image, 256 * (i % 4) + 254, 9);
}

// How many sectors, and the fronts of list and answers as they then are.
fn erased_into(what: &[u8], image: &mut [u8], names: &[u8], answers: &mut [u8], list: &mut [u16]) {
    points::title(b"erase of ", what);
    let answer = erase_calls::erase_many(image, names, answers, list);
    points::print_change(answer, list);
    points::three(
        b"  answers ",
        buffers::num_at(answers, 0),
        buffers::num_at(answers, 1),
        buffers::num_at(answers, 2),
    );
}

fn erased(what: &[u8], image: &mut [u8], names: &[u8]) {
    let mut answers = [99u8; 778];
    let mut list = [7u16; 389];
    erased_into(what, image, names, &mut answers, &mut list);
}

// Whole calls that are refused.
fn one_answer(image: &mut [u8]) {
    let mut answers = [99u8; 1];
    let mut list = [7u16; 2];
    erased_into(
        b"two names with room for one answer",
        image,
        b"AAA       AAC       ",
        &mut answers,
        &mut list,
    );
    erased_into(
        b"29 bytes with room for one answer",
        image,
        b"AAA       AAC       AAD      ",
        &mut answers,
        &mut list,
    );
}

fn one_number(image: &mut [u8]) {
    let mut answers = [99u8; 2];
    let mut list = [7u16; 1];
    erased_into(
        b"two sectors with a list of one",
        image,
        b"AAA       AAC       ",
        &mut answers,
        &mut list,
    );
}

fn refused(image: &mut [u8]) {
    erased(b"nine bytes", image, b"AAA      ");
    erased(
        b"19 bytes, the first of them 0",
        image,
        b"\x00AA       AAC      ",
    );
    one_answer(image);
    one_number(image);
    points::set(image, 0, 63);
    erased(
        b"nine bytes, of a disk that is refused",
        image,
        b"AAA      ",
    );
    points::set(image, 0, 5);
    points::checked(b"the disk", image);
}

// Calls that are accepted, on a disk of 80 files.
fn few(image: &mut [u8]) {
    erased(b"no name", image, b"");
    erased(b"one name", image, b"AAA       ");
    erased(
        b"the same name twice, the second in small letters",
        image,
        b"AAB       aab       ",
    );
    erased(
        b"two files in one sector, the later one first",
        image,
        b"AAD       AAC       ",
    );
    erased(
        b"a name with first byte 0 before another",
        image,
        b"\x00AE       AAF       ",
    );
}

fn protected(image: &mut [u8]) {
    points::set(image, directory::slot_place(6), 69);
    erased(
        b"a protected file among others",
        image,
        b"AAH       AAG       AAI       ",
    );
    erased(
        b"names of which none is there",
        image,
        b"NONE      AAA       ",
    );
    points::checked(b"the disk", image);
}

// Buffers of just so many.
fn just_enough(image: &mut [u8]) {
    let mut answers = [99u8; 2];
    let mut list = [7u16; 1];
    erased_into(
        b"two names and one sector",
        image,
        b"ABA       ABB       ",
        &mut answers,
        &mut list,
    );
}

fn eighty() {
    let mut image = points::blank();
    let mut names = [0u8; 800];
    files(&mut image, &mut names, 80);
    refused(&mut image);
    few(&mut image);
    protected(&mut image);
    just_enough(&mut image);
    files(&mut image, &mut names, 80);
    erased(b"80 files", &mut image, &names);
    erased(b"80 files once more", &mut image, &names);
}

// Slots 80, 81 and 82: the sector of track 4 sector 1 lies between, and is no directory's.
fn most() {
    let mut image = points::blank();
    let mut names = [0u8; 7780];
    files(&mut image, &mut names, 778);
    points::set(&mut image, 255, 35);
    erased(
        b"three files beside the gap",
        &mut image,
        b"AHJ       AIA       AIB       ",
    );
    files(&mut image, &mut names, 778);
    erased(b"778 files", &mut image, &names);
    points::checked(b"the disk", &image);
}

fn treed(what: &[u8], image: &[u8]) {
    let mut slots = [0u16; 4];
    points::title(b"tree of ", what);
    points::counted(b"slots ", tree_lists::list_tree(image, b"", &mut slots));
}

// The first of the sectors written, and the second not.
fn cut(image: &mut [u8]) {
    let mut old = points::blank();
    buffers::copy_into(&mut old, 0, image);
    erased(
        b"the file and then its directory",
        image,
        b"AAD       FOLDER    ",
    );
    buffers::copy_into(&mut old, 0, buffers::part_at(image, 0, 512));
    points::checked(b"a disk cut after the first sector", &old);
    treed(b"the root of it", &old);
}

fn directories() {
    let mut image = points::blank();
    nested(&mut image, 3);
    erased(
        b"a directory and then the file in it",
        &mut image,
        b"FOLDER    AAD       ",
    );
    nested(&mut image, 3);
    treed(b"the root", &image);
    cut(&mut image);
    nested(&mut image, 1);
    erased(b"both in one sector", &mut image, b"AAB       FOLDER    ");
}

fn main() {
    eighty();
    most();
    directories();
}
