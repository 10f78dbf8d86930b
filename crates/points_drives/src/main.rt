// Points of document 01: the raw sector over two images.
#![tactic(auto)]

fn raw<'a>(one: &'a [u8], two: &'a [u8], drive: usize, track: usize, sector: usize) {
    points::number(b"drive ", drive);
    points::number(b" track ", track);
    points::number(b" sector ", sector);
    let number = match drives::raw_place(one, two, drive, track, sector) {
        Ok(_) => 0,
        Err(reason) => reason.number(),
    };
    points::number(b": number ", number);
    let part = drives::raw_sector(one, two, drive, track, sector);
    points::number(b", bytes ", part.len());
    points::line(b", the first ", buffers::num_at(part, 0));
}

fn raw_calls<'a>(one: &'a [u8], two: &'a [u8]) {
    raw(one, two, 1, 4, 1);
    raw(one, two, 2, 4, 1);
    raw(one, two, 1, 0, 1);
    raw(one, two, 2, 207, 10);
    raw(one, two, 0, 4, 1);
    raw(one, two, 3, 4, 1);
    raw(one, two, points::LARGEST, 4, 1);
    raw(one, two, 1, 80, 1);
    raw(one, two, 1, 4, 11);
    raw(one, two, 1, points::LARGEST, points::LARGEST);
    points::say(b"drive 1 one byte short: ");
    raw(buffers::part_at(one, 0, 819199), two, 2, 4, 1);
    points::say(b"drive 2 one byte short: ");
    raw(one, buffers::part_at(two, 0, 819199), 1, 4, 1);
    points::say(b"drive 2 one byte short: ");
    raw(one, buffers::part_at(two, 0, 819199), 3, 4, 1);
}

fn main() {
    let mut one = points::blank();
    let mut two = points::blank();
    points::set(&mut one, 0, 19);
    points::set(&mut one, 40960, 19);
    points::set(&mut two, 40960, 200);
    raw_calls(&one, &two);
}
