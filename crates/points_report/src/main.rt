// Points of document 02's M-111: reports as the app lends them, on each side of every edge.
#![tactic(auto)]

ghost use Rattle.std.specs.Prelude.{◌<◌};

use refusals::Refused;

fn answered(what: &[u8], answer: Result<usize, Refused>) {
    points::title(b"", what);
    points::counted(b"disks ", answer);
}

// Slot 1: a file of kind 5, which is not carried, in so many sectors from map bit 0 on.
fn one_file(image: &mut [u8], count: usize) {
    let mut map = [0u8; 195];
    for bit in 0..count.min(1560) {
        maps::set_bit(&mut map, bit);
    }
    points::set(image, 0, 5);
    buffers::copy_into(image, 1, b"FILE      ");
    points::set(image, 11, points::low(count / 256));
    points::set(image, 12, points::low(count));
    points::set(image, 13, 4);
    points::set(image, 14, 1);
    buffers::copy_into(image, 15, &map);
    points::disks::chain(image, count);
}

// The number at a place of a report: four bytes, low byte first.
fn number_at(bytes: &[u8], at: usize) -> usize
    requires { at < 496 }
{
    let number = [
        buffers::byte_at(bytes, at),
        buffers::byte_at(bytes, at + 1),
        buffers::byte_at(bytes, at + 2),
        buffers::byte_at(bytes, at + 3),
    ];
    u32::from_le_bytes(number) as usize
}

// The numbers of a report that are not 0, each after its place.
fn shown(what: &[u8], bytes: &[u8]) {
    points::say(what);
    points::say(b":");
    for k in 0..124 {
        let n = number_at(bytes, 4 * k);
        if n != 0 {
            points::number(b" ", k);
            points::number(b"=", n);
        }
    }
    points::say(b"\n");
}

fn added(what: &[u8], image: &[u8], report: &mut [u8]) {
    let answer = report_bytes::add(image, report);
    answered(what, answer);
}

// A disk of one file, added to an empty report.
fn sized(image: &mut [u8], count: usize) {
    let mut report = [0u8; 496];
    one_file(image, count);
    points::number(b"one file of sectors ", count);
    added(b"", image, &mut report);
    shown(b"its report", &report);
}

fn classes(image: &mut [u8]) {
    sized(image, 1);
    sized(image, 2);
    sized(image, 3);
    sized(image, 4);
    sized(image, 1023);
    sized(image, 1024);
    sized(image, 1560);
}

fn cut_added(image: &[u8], report: &mut [u8]) {
    let cut = buffers::part_at(image, 0, 819199);
    added(b"an image one byte short", cut, report);
}

fn refused_added(image: &[u8], report: &mut [u8]) {
    added(b"a disk of kind 13", image, report);
    added(b"the same again", image, report);
    shown(b"the report", report);
}

// Accepted and refused disks in one report.
fn shelf(image: &mut [u8], report: &mut [u8]) {
    shown(b"an empty report", report);
    one_file(image, 7);
    added(b"a disk of one file", image, report);
    cut_added(image, report);
    points::set(image, 0, 13);
    refused_added(image, report);
    points::set(image, 0, 0);
}

// That report and another, joined either way.
fn joined(image: &[u8], first: [u8; 496]) {
    let mut one = first;
    let mut two = [0u8; 496];
    added(b"an empty disk", image, &mut two);
    shown(b"another report", &two);
    let both = report_bytes::join(&mut one, &two);
    answered(b"the one joined by the other", both);
    shown(b"the join", &one);
    let other = report_bytes::join(&mut two, &first);
    answered(b"the other joined by the one", other);
    shown(b"the join", &two);
}

// A report of 65,534 disks, and one more than it can be over.
fn fullest(image: &[u8]) {
    let mut report = [0u8; 496];
    points::set(&mut report, 0, 254);
    points::set(&mut report, 1, 255);
    let mut other = [0u8; 496];
    points::set(&mut other, 4, 2);
    let early = report_bytes::join(&mut report, &other);
    answered(b"65534 joined by 2", early);
    added(b"65534 and a disk", image, &mut report);
    added(b"65535 and a disk", image, &mut report);
    let none = report_bytes::join(&mut other, &report);
    answered(b"2 joined by 65535", none);
    shown(b"the report of 65535", &report);
}

// Buffers of another length, and what lies past the numbers.
fn lengths(image: &[u8]) {
    let mut long = [9u8; 500];
    let zeros = [0u8; 444];
    buffers::copy_into(&mut long, 0, &zeros);
    let mut short = [0u8; 495];
    added(b"a report of 495 bytes", image, &mut short);
    let other = report_bytes::join(&mut long, &short);
    answered(b"joined by one of 495 bytes", other);
    added(b"a report of 500 bytes", image, &mut long);
    shown(b"with 9 in every byte past its numbers", &long);
}

fn main() {
    let mut image = points::blank();
    classes(&mut image);
    let mut one = [0u8; 496];
    shelf(&mut image, &mut one);
    joined(&image, one);
    fullest(&image);
    lengths(&image);
}
