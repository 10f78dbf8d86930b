// Points of document 02's M-100: a file opened by name, its body piece by piece, and readers that no call made.
#![tactic(auto)]

use readers::Place;

fn opened(what: &[u8], image: &[u8], name: &[u8]) {
    points::title(b"opening of ", what);
    match readers::begin(image, name) {
        Ok(p) => {
            points::number(b"sector ", p.sector);
            points::number(b", offset ", p.offset);
            points::line(b", left ", p.left);
        }
        Err(r) => points::refused(r),
    }
}

// A piece from a place on: how many came, and where the next begins.
fn piece(image: &[u8], at: Place, out: &mut [u8]) -> Place {
    points::number(b"piece into ", out.len());
    let r = readers::resume(image, at, out);
    points::number(b": came ", r.came);
    points::number(b", next ", r.sector);
    points::number(b" ", r.offset);
    points::number(b", left ", r.left);
    Place {
        sector: r.sector,
        offset: r.offset,
        left: r.left,
    }
}

// The same into four dots, which are shown as they then are.
fn four(image: &[u8], at: Place) -> Place {
    let mut buf = [b'.'; 4];
    let next = piece(image, at, &mut buf);
    points::say(b", ");
    points::say(&buf);
    points::say(b"\n");
    next
}

fn place(sector: usize, offset: usize, left: usize) -> Place {
    Place {
        sector,
        offset,
        left,
    }
}

// A body of 505 bytes cut at nothing, at the end of its first sector, and past its own end.
fn cuts(image: &[u8]) {
    let mut none = [0u8; 0];
    let begun = piece(image, place(80, 9, 505), &mut none);
    points::say(b"\n");
    let second = four(image, begun);
    let mut rest = [0u8; 497];
    let third = piece(image, second, &mut rest);
    points::say(b"\n");
    let mut three = [b'.'; 3];
    let last = piece(image, third, &mut three);
    points::say(b", ");
    points::say(&three);
    points::say(b"\n");
    let end = four(image, last);
    four(image, end);
}

// What stands there along the links, or nothing.
fn rubbish(image: &[u8]) {
    four(image, place(0, 1, 4));
    four(image, place(80, 9, 795591));
    four(image, place(80, 9, 795592));
    four(image, place(80, 510, 4));
    four(image, place(1600, 0, 4));
    four(
        image,
        place(points::LARGEST, points::LARGEST, points::LARGEST),
    );
    four(buffers::part_at(image, 0, 819199), place(80, 9, 505));
}

fn played(image: &[u8]) {
    opened(b"one file of 2 sectors", image, b"FILE A");
    opened(b"a name of 0 bytes", image, b"");
    opened(b"a kind that cannot be read", image, b"FILE C");
    opened(b"a name no slot has", image, b"FILE D");
    opened(
        b"an image one byte short",
        buffers::part_at(image, 0, 819199),
        b"FILE A",
    );
    cuts(image);
    rubbish(image);
}

fn main() {
    let mut image = points::blank();
    points::disks::file_a(&mut image);
    points::disks::file_b(&mut image);
    points::disks::file_c(&mut image);
    played(&image);
}
