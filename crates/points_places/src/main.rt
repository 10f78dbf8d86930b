// Points of document 01: the places of sectors and map bits, and the numbers that a slot holds.
#![tactic(auto)]

fn sector_line(track: usize, sector: usize) {
    points::number(b"track ", track);
    points::number(b" sector ", sector);
    if geometry::is_data(track, sector) {
        points::say(b": data");
    } else {
        points::say(b": not data");
    }
    match geometry::bit_of(track, sector) {
        Some(bit) => points::number(b", bit ", bit),
        None => points::say(b", no bit"),
    }
    match geometry::place(track, sector) {
        Some(place) => points::number(b", place ", place),
        None => points::say(b", no place"),
    }
    points::say(b"\n");
}

fn bit_line(bit: usize) {
    points::number(b"bit ", bit);
    match geometry::address_of(bit) {
        Some(a) => {
            points::number(b": track ", a.track);
            points::number(b" sector ", a.sector);
        }
        None => points::say(b": no sector"),
    }
    points::number(b", place ", geometry::bit_place(bit));
    match geometry::place_of_bit(bit) {
        Some(place) => points::number(b", in the table ", place),
        None => points::say(b", not in the table"),
    }
    points::say(b"\n");
}

fn sectors() {
    sector_line(0, 1);
    sector_line(3, 10);
    sector_line(4, 1);
    sector_line(79, 10);
    sector_line(80, 1);
    sector_line(127, 10);
    sector_line(128, 1);
    sector_line(207, 10);
    sector_line(208, 1);
    sector_line(4, 0);
    sector_line(4, 11);
    sector_line(points::LARGEST, 1);
    sector_line(4, points::LARGEST);
    bit_line(0);
    bit_line(759);
    bit_line(760);
    bit_line(1559);
    bit_line(1560);
    bit_line(points::LARGEST);
}

fn count_line(high: u8, low: u8) {
    let mut s = [0u8; 256];
    s[11] = high;
    s[12] = low;
    points::number(b"count bytes ", usize::from(high));
    points::number(b" ", usize::from(low));
    points::line(b": ", slots::count_of(&s));
}

fn length_line(pages: u8, low: u8, high: u8) {
    let mut s = [0u8; 256];
    s[239] = pages;
    s[240] = low;
    s[241] = high;
    points::number(b"length bytes ", usize::from(pages));
    points::number(b" ", usize::from(low));
    points::number(b" ", usize::from(high));
    points::number(b": pages ", slots::pages_of(&s));
    points::number(b", remainder ", slots::remainder_of(&s));
    points::line(b", length ", slots::length_of(&s));
}

fn fields() {
    count_line(1, 44);
    count_line(44, 1);
    length_line(0, 255, 63);
    length_line(1, 0, 0);
    length_line(1, 0, 192);
}

fn main() {
    sectors();
    fields();
}
