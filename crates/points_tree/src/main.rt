// Points of document 02: subdirectories. Directories inside directories to depth 255, an empty one, two with one code, an orphan,
// rings; the erase of each, and lists that are one number short.
#![tactic(auto)]

ghost use Rattle.std.specs.Prelude.{◌<◌};

// A directory in slot `i`, counted from 0, with a name of two letters, its code and the code of the one that it is in.
fn directory_slot(image: &mut [u8], i: usize, code: u8, parent: u8)
    requires { i < 300 }
{
    let at = directory::slot_place(i);
    buffers::copy_into(image, at, b"\x15          ");
    points::set(image, at + 1, b'A' + (i / 26) as u8);
    points::set(image, at + 2, b'A' + (i % 26) as u8);
    points::set(image, at + 250, code);
    points::set(image, at + 254, parent);
}

// A file of kind 5 in slot 5, with the sector of map bit 0, in the directory with a code.
fn file(image: &mut [u8], parent: u8) {
    buffers::copy_into(image, 1024, b"\x05FILE      \x00\x01\x04\x01\x01");
    points::set(image, 1278, parent);
}

// How many, and the front of the list as it then is.
fn treed_into(what: &[u8], image: &[u8], name: &[u8], list: &mut [u16]) {
    points::title(b"tree of ", what);
    match tree_lists::list_tree(image, name, list) {
        Ok(n) => {
            points::number(b"slots ", n);
            points::three(
                b", list ",
                points::listed_at(list, 0),
                points::listed_at(list, 1),
                points::listed_at(list, 2),
            );
        }
        Err(r) => points::refused(r),
    }
}

fn treed(what: &[u8], image: &[u8], name: &[u8]) {
    let mut list = [7u16; 778];
    treed_into(what, image, name, &mut list);
}

fn erased(what: &[u8], image: &mut [u8], name: &[u8]) {
    let mut list = [0u16; 1];
    points::erased_as(what, image, name, &mut list);
}

// An empty directory: what its kind refuses, and what it does not.
fn empty_directory(image: &mut [u8]) {
    directory_slot(image, 0, 9, 0);
    points::checked(b"an empty directory", image);
    treed(b"an empty directory", image, b"AA");
    treed(b"the root", image, b"");
    points::started(b"a directory", image, b"AA");
    points::set(image, 12, 1);
    points::checked(b"a directory with a count of 1", image);
    points::set(image, 12, 0);
}

fn map_and_address(image: &mut [u8]) {
    points::set(image, 15, 1);
    points::checked(b"a directory with a map bit", image);
    points::set(image, 15, 0);
    points::set(image, 13, 3);
    points::checked(b"a directory with a first address", image);
}

fn short_lists(image: &[u8]) {
    let mut short = [7u16; 4];
    treed_into(b"the root with a list of 4", image, b"", &mut short);
    let mut just = [7u16; 5];
    treed_into(b"the root with a list of 5", image, b"", &mut just);
}

// Slot 2 in slot 1's directory, slot 5 in slot 2's.
fn directories_and_a_file(image: &mut [u8]) {
    directory_slot(image, 1, 4, 9);
    directory_slot(image, 2, 5, 0);
    directory_slot(image, 3, 6, 0);
    file(image, 4);
    points::checked(b"directories and a file", image);
}

fn trees(image: &[u8]) {
    treed(b"the root", image, b"");
    treed(b"the directory in slot 1", image, b"aa");
    treed(b"the directory in slot 2", image, b"AB");
    treed(b"a file", image, b"FILE");
    treed(b"no such name", image, b"NONE");
    treed(b"a name of eleven bytes", image, b"AAAAAAAAAAA");
    short_lists(image);
}

fn full_and_empty(image: &mut [u8]) {
    erased(b"a directory with a directory in it", image, b"AA");
    erased(b"a directory with a file in it", image, b"AB");
    erased(b"an empty directory", image, b"AC");
}

fn protected_and_last(image: &mut [u8]) {
    points::set(image, 768, 85);
    erased(b"a protected directory", image, b"AD");
    erased(b"the file", image, b"FILE");
    erased(b"the directory that it was in", image, b"AB");
    treed(b"the root", image, b"");
}

// 28: a ring of two with a third that hangs from it, and a directory inside itself.
fn rings(image: &mut [u8]) {
    directory_slot(image, 0, 1, 2);
    directory_slot(image, 1, 2, 1);
    directory_slot(image, 2, 3, 1);
    points::checked(b"a ring of two and one that hangs from it", image);
    treed(b"a ring of two", image, b"");
}

fn ring_of_others(image: &mut [u8]) {
    directory_slot(image, 0, 3, 1);
    directory_slot(image, 2, 1, 2);
    treed(b"a ring behind one that hangs from it", image, b"");
    directory_slot(image, 0, 1, 0);
    directory_slot(image, 2, 3, 1);
}

fn inside_itself(image: &mut [u8]) {
    directory_slot(image, 1, 2, 2);
    treed(b"a directory inside itself", image, b"");
    erased(b"a directory inside itself", image, b"AB");
    directory_slot(image, 1, 2, 2);
    directory_slot(image, 3, 5, 0);
    file(image, 8);
    treed(b"an orphan behind it", image, b"");
}

// 27, then 26, which comes first.
fn orphan(image: &mut [u8]) {
    directory_slot(image, 1, 2, 0);
    treed(b"an orphan", image, b"");
    directory_slot(image, 3, 1, 7);
    treed(b"two directories with one code", image, b"");
    erased(b"the first of them", image, b"AA");
}

fn code_0(image: &mut [u8]) {
    directory_slot(image, 3, 0, 0);
    treed(b"a directory with code 0", image, b"");
    erased(b"a directory with code 0", image, b"AD");
}

// Directories inside directories, each in the slot behind the one that it is in; slot 1's last byte gives nine tracks more.
fn nested(image: &mut [u8]) {
    for i in 0..255 {
        directory_slot(image, usize::from(i), i + 1, i);
    }
    points::set(image, 255, 9);
}

fn one_short(image: &[u8]) {
    let mut short = [7u16; 254];
    treed_into(b"the root with a list of 254", image, b"", &mut short);
}

fn just_enough(image: &[u8]) {
    let mut just = [7u16; 255];
    treed_into(b"the root with a list of 255", image, b"", &mut just);
}

fn deep(image: &[u8]) {
    points::checked(b"255 directories, each inside the one before", image);
    treed(b"the root", image, b"");
    treed(b"the last but one", image, b"JT");
    one_short(image);
    just_enough(image);
}

fn deep_erased(image: &mut [u8]) {
    erased(b"the last but one", image, b"JT");
    erased(b"the last", image, b"JU");
    directory_slot(image, 254, 255, 254);
    points::set(image, 254, 255);
    treed(b"a ring of 255", image, b"");
}

fn small() {
    let mut image = points::blank();
    empty_directory(&mut image);
    map_and_address(&mut image);
    directories_and_a_file(&mut image);
    trees(&image);
    full_and_empty(&mut image);
    protected_and_last(&mut image);
}

fn tangled() {
    let mut image = points::blank();
    rings(&mut image);
    ring_of_others(&mut image);
    inside_itself(&mut image);
    orphan(&mut image);
    code_0(&mut image);
}

fn deepest() {
    let mut image = points::blank();
    nested(&mut image);
    deep(&image);
    deep_erased(&mut image);
}

fn main() {
    small();
    tangled();
    deepest();
}
