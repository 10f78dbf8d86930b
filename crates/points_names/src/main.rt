// Points of document 02's M-105: names that differ only in a to z against A to Z are the same name.
#![tactic(auto)]

use changes::Marking;

fn saved(image: &mut [u8], name: &[u8], list: &mut [u16]) {
    points::title(b"save of ", name);
    points::accepted(saves::save(image, 19, name, 29, 32768, b"", b"", b"LA LA", list));
}

fn renamed(image: &mut [u8], name: &[u8], new: &[u8], list: &mut [u16]) {
    points::title(b"rename of ", name);
    points::title(b"to ", new);
    points::accepted(changes::rename(image, name, new, list));
}

fn erased(image: &mut [u8], name: &[u8], list: &mut [u16]) {
    points::title(b"erase of ", name);
    points::accepted(changes::erase(image, name, list));
}

fn marked(call: &[u8], image: &mut [u8], name: &[u8], marking: Marking, list: &mut [u16]) {
    points::title(call, name);
    points::accepted(changes::set_mark(image, name, marking, list));
}

fn opened(image: &[u8], name: &[u8]) {
    points::title(b"opening of ", name);
    match readers::begin(image, name) {
        Ok(p) => points::line(b"left ", p.left),
        Err(r) => points::refused(r),
    }
}

// The names of the first two files, as a listing has them.
fn listed(image: &[u8]) {
    let mut buf = [0u8; 516];
    points::listed(b"two files", image, &mut buf);
    points::say(b"names stored: ");
    points::say(buffers::part_at(&buf, 3, 10));
    points::say(b", ");
    points::say(buffers::part_at(&buf, 261, 10));
    points::say(b".\n");
}

// Every call that takes a name, in small letters.
fn small_read(image: &[u8]) {
    points::read_dots(b"tunes", image, b"tunes");
    points::started(b"tunes", image, b"tunes");
    opened(image, b"tunes");
}

fn small_changes(image: &mut [u8], list: &mut [u16]) {
    saved(image, b"tunes", list);
    marked(b"hide of ", image, b"tunes", Marking::Hide, list);
    marked(b"show of ", image, b"tunes", Marking::Show, list);
}

fn small_protected(image: &mut [u8], list: &mut [u16]) {
    marked(b"protect of ", image, b"tunes", Marking::Protect, list);
    erased(image, b"tunes", list);
    renamed(image, b"tunes", b"Tunes", list);
    marked(b"release of ", image, b"tunes", Marking::Release, list);
}

// New names that are refused: the bytes that are stored, and another file's name.
fn new_name_taken(image: &mut [u8], list: &mut [u16]) {
    renamed(image, b"tunes", b"TUNES", list);
    renamed(image, b"TUNES", b"TUNES", list);
    renamed(image, b"TUNES", b"SONGS", list);
    renamed(image, b"TUNES", b"songs", list);
}

fn case_altered(image: &mut [u8], list: &mut [u16]) {
    renamed(image, b"tunes", b"Tunes", list);
    listed(image);
    points::read_dots(b"TUNES", image, b"TUNES");
    renamed(image, b"TUNES", b"Tunes", list);
    renamed(image, b"TUNES", b"TUNES", list);
    listed(image);
}

fn another_name(image: &mut [u8], list: &mut [u16]) {
    renamed(image, b"tunes", b"Hits", list);
    points::read_dots(b"TUNES", image, b"TUNES");
    points::read_dots(b"HITS", image, b"HITS");
    erased(image, b"hits", list);
    points::read_dots(b"Hits", image, b"Hits");
}

// A byte at the front of a stored name, and the one asked for.
fn asked(image: &mut [u8], stored: u8, asked: u8) {
    let front = [stored];
    buffers::copy_into(image, 1, &front);
    let name = [asked, 85, 78, 69, 83];
    points::number(b"byte ", usize::from(stored));
    points::number(b" stored, ", usize::from(asked));
    points::say(b" asked for, ");
    points::started(b"the file", image, &name);
}

// Bytes on each side of A and Z, of a and z, and beyond, each beside those 32 away.
fn capitals(image: &mut [u8]) {
    asked(image, 64, 32);
    asked(image, 64, 96);
    asked(image, 65, 33);
    asked(image, 65, 97);
    asked(image, 90, 58);
    asked(image, 90, 122);
}

fn between(image: &mut [u8]) {
    asked(image, 91, 59);
    asked(image, 91, 123);
    asked(image, 96, 64);
    asked(image, 96, 128);
    asked(image, 97, 65);
    asked(image, 97, 129);
}

fn beyond(image: &mut [u8]) {
    asked(image, 122, 90);
    asked(image, 122, 154);
    asked(image, 123, 91);
    asked(image, 123, 155);
    asked(image, 193, 161);
    asked(image, 193, 225);
}

// Two stored names, of the file in slot 1 and of that in slot 2.
fn both(what: &[u8], image: &mut [u8], one: &[u8], two: &[u8]) {
    buffers::copy_into(image, 1, one);
    buffers::copy_into(image, 257, two);
    points::checked(what, image);
}

fn one_name(image: &mut [u8]) {
    both(b"TUNES and tunes", image, b"TUNES     ", b"tunes     ");
    both(b"tunes and TUNES", image, b"tunes     ", b"TUNES     ");
    both(b"Tunes and Tunes", image, b"Tunes     ", b"Tunes     ");
    both(
        b"tenth bytes 90 and 122",
        image,
        b"TUNES    Z",
        b"tunes    z",
    );
}

fn two_names(image: &mut [u8]) {
    both(
        b"tenth bytes 64 and 96",
        image,
        b"TUNES    @",
        b"tunes    `",
    );
    both(
        b"tenth bytes 91 and 123",
        image,
        b"TUNES    [",
        b"tunes    {",
    );
    both(
        b"tenth bytes 193 and 225",
        image,
        b"TUNES    \xc1",
        b"TUNES    \xe1",
    );
    both(b"TUNES and Songs", image, b"TUNES     ", b"Songs     ");
}

fn asked_for(image: &mut [u8], list: &mut [u16]) {
    small_read(image);
    small_changes(image, list);
    small_protected(image, list);
}

fn compared(image: &mut [u8]) {
    capitals(image);
    between(image);
    beyond(image);
    one_name(image);
    two_names(image);
}

fn given(image: &mut [u8], list: &mut [u16]) {
    new_name_taken(image, list);
    case_altered(image, list);
    another_name(image, list);
}

fn main() {
    let mut image = points::blank();
    let mut list = [0u16; 8];
    saved(&mut image, b"TUNES", &mut list);
    saved(&mut image, b"Songs", &mut list);
    asked_for(&mut image, &mut list);
    compared(&mut image);
    given(&mut image, &mut list);
}
