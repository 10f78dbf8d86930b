// A file's body piece by piece: it is opened by name, and then the next bytes are asked for, as many as a lent buffer holds.
#![tactic(auto)]

ghost use Rattle.std.specs.Prelude.{◌≡◌, ◌<◌, length};
ghost use Rattle.chains.specs.File.{file_of};
ghost use Rattle.readers.specs.Positions.{position_or_next};
ghost use Rattle.readers.specs.Pieces.{is_reader_place, piece_of, buffer_after, PlaceInRange};
ghost use Rattle.readers.specs.Opening.{open_file_at, open_file, file_opening_of};
ghost use Rattle.readers.specs.Readers.{reader_at, reader_piece, reader_after, reader_buffer};

use refusals::{Reason, Refused};

// The sectors of an image; also the number that no sector has, where a chain has ended.
const SECTORS: usize = 1600;

// The payload bytes of a sector.
const PAYLOAD: usize = 510;

// The longest body that a disk holds: the payload of its 1,560 data sectors, less the nine bytes of the header.
const LONGEST_BODY: usize = 795591;

// Where a byte of a chain stands: the number of its sector, and its offset among the sector's 510 payload bytes.
#[derive(Clone, Copy, Debug, PartialEq, Eq)]
pub struct Position {
    pub sector: usize,
    pub offset: usize,
}

// What is still to be read of a file: where its next byte stands, and how many bytes are left.
#[derive(Clone, Copy, Debug, PartialEq, Eq)]
pub struct Place {
    pub sector: usize,
    pub offset: usize,
    pub left: usize,
}

// What a piece answers: how many bytes came, and what is then still to be read.
#[derive(Clone, Copy, Debug, PartialEq, Eq)]
pub struct Piece {
    pub came: usize,
    pub sector: usize,
    pub offset: usize,
    pub left: usize,
}

// "The reader holds the lent disk and its place in the chain." While it is held the disk is lent to it: "A disk being read can't
// be changed until the reader is given up."
#[derive(Clone, Copy)]
pub struct Reader<'a> {
    pub image: &'a [u8],
    pub at: Place,
}

// The position of byte `offset` of a sector's payload; past its last byte, the first of the sector that its link names.
fn position_at(image: &[u8], sector: usize, offset: usize) -> Position
    requires { sector < 1600 }
    ensures { result ≡ position_or_next image.now sector offset }
{
    if offset < PAYLOAD {
        return Position { sector, offset };
    }
    let at = sector * 512;
    let track = buffers::num_at(image, at + 510);
    let number = buffers::num_at(image, at + 511);
    Position {
        sector: geometry::data_place(track, number) / 512,
        offset: 0,
    }
}

// Copies the next bytes to the front of `out`, as many as are left or as it holds: from each sector one run. A chain that is
// no file's may end before.
fn copy_runs(image: &[u8], place: Place, out: &mut [u8]) -> Piece
    requires { PlaceInRange image.now place }
    ensures { (result ≡ piece_of image.now place (length out.old)) × (out.new ≡ buffer_after image.now place out.old) }
{
    let want = place.left.min(out.len());
    let mut at = Position {
        sector: place.sector,
        offset: place.offset,
    };
    let mut done: usize = 0;
    // No plainer: the loop goes along the chain's links, by runs.
    while done < want && at.sector < SECTORS {
        let n = (PAYLOAD - at.offset).min(want - done);
        buffers::copy_into(
            out,
            done,
            buffers::part_at(image, at.sector * 512 + at.offset, n),
        );
        at = position_at(image, at.sector, at.offset + n);
        done += n;
    }
    Piece {
        came: done,
        sector: at.sector,
        offset: at.offset,
        left: place.left - done,
    }
}

// Whether numbers can be a reader's place in an image.
#[tactic(auto, unfolding(crate::specs::Pieces::is_reader_place))]
fn is_place(image: &[u8], place: Place) -> bool
    ensures { result ≡ is_reader_place image.now place }
{
    image.len() == geometry::IMAGE_SIZE
        && place.sector < SECTORS
        && place.offset < PAYLOAD
        && place.left <= LONGEST_BODY
}

// The next bytes to the front of `out` from a place on. It answers for numbers of any size and an image of any length; nothing
// comes of numbers that can be no reader's.
pub fn piece_at(image: &[u8], place: Place, out: &mut [u8]) -> Piece
    ensures { (result ≡ piece_of image.now place (length out.old)) × (out.new ≡ buffer_after image.now place out.old) }
{
    if is_place(image, place) {
        return copy_runs(image, place, out);
    }
    Piece {
        came: 0,
        sector: SECTORS,
        offset: 0,
        left: place.left,
    }
}

// Where the body of the file in a slot begins, whose number is `slot`: past the nine bytes of its header.
fn begin_at(image: &[u8], s: &[u8], slot: usize) -> Result<Place, Refused>
    ensures { file_opening_of result ≡ open_file_at slot (file_of image.now s.now) }
{
    if !slots::is_readable(slots::kind_of(s)) {
        return refusals::refuse(Reason::WrongKind, slot);
    }
    Ok(Place {
        sector: geometry::bit_place(slots::first_of(s)) / 512,
        offset: 9,
        left: headers::file_length(image, s),
    })
}

// Opens a file by name: where its body begins and how long it is. What a read refuses is refused here, but for 20.
pub fn begin(image: &[u8], name: &[u8]) -> Result<Place, Refused>
    ensures { file_opening_of result ≡ open_file image.now name.now }
{
    let i = files::look_up(image, name)?;
    begin_at(image, directory::slot_at(image, i), i + 1)
}

impl<'a> Reader<'a> {
    // A reader at a place, such as `begin` answers.
    pub fn open(image: &'a [u8], at: Place) -> Reader<'a>
        ensures { result ≡ reader_at image.entry at }
    {
        Reader { image, at }
    }

    // The next bytes to the front of `out`, as many as it holds or as are left; how many came.
    pub fn next(&mut self, out: &mut [u8]) -> usize
        ensures { (result ≡ (reader_piece self.old (length out.old)).came) × (self.new ≡ reader_after self.old (length out.old)) × (out.new ≡ reader_buffer self.old out.old) }
    {
        let piece = piece_at(self.image, self.at, out);
        self.at = Place {
            sector: piece.sector,
            offset: piece.offset,
            left: piece.left,
        };
        piece.came
    }
}

// The next bytes by a reader that is made for this one call, for a caller that can hold none.
pub fn resume(image: &[u8], at: Place, out: &mut [u8]) -> Piece
    ensures { (result ≡ piece_of image.now at (length out.old)) × (out.new ≡ buffer_after image.now at out.old) }
{
    let mut reader = Reader::open(image, at);
    let came = reader.next(out);
    Piece {
        came,
        sector: reader.at.sector,
        offset: reader.at.offset,
        left: reader.at.left,
    }
}
