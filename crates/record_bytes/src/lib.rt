// The record of a recording as the app lends it: 2,048 bytes at the front of a buffer, laid out here and nowhere else.
#![tactic(auto)]

ghost use Rattle.std.specs.Prelude.{◌≡◌};
ghost use Rattle.buffers.specs.Bytes.{put};
ghost use Rattle.record_bytes.specs.Layout.{record_length, record_in, front_of, bytes_of, record_bytes_with};

use recordings::Record;

// The bytes of a record, of which the last 806 are not used.
pub const RECORD_BYTES: usize = 2048;

// Where its parts begin. Before the name stand the numbers: kind, page, offset, n, and how many bytes came.
const LONG: usize = 8;

const NAME: usize = 12;

const EXEC: usize = 22;

const INFO: usize = 25;

const USED: usize = 36;

const FIRST: usize = 231;

const LAST: usize = 732;

// How many bytes came.
fn long_in(bytes: &[u8]) -> usize
    ensures { result ≡ record_length bytes.now }
{
    u32::from_le_bytes([
        buffers::byte_at(bytes, 8),
        buffers::byte_at(bytes, 9),
        buffers::byte_at(bytes, 10),
        buffers::byte_at(bytes, 11),
    ]) as usize
}

// The record that bytes hold; bytes past the end count as 0.
pub fn record_in(bytes: &[u8]) -> Record
    ensures { result ≡ record_in bytes.now }
{
    let mut name = [0u8; 10];
    buffers::copy_into(&mut name, 0, buffers::part_at(bytes, NAME, 10));
    let mut exec = [0u8; 3];
    buffers::copy_into(&mut exec, 0, buffers::part_at(bytes, EXEC, 3));
    let mut info = [0u8; 11];
    buffers::copy_into(&mut info, 0, buffers::part_at(bytes, INFO, 11));
    let mut used = [0u8; 195];
    buffers::copy_into(&mut used, 0, buffers::part_at(bytes, USED, 195));
    let mut first = [0u8; 501];
    buffers::copy_into(&mut first, 0, buffers::part_at(bytes, FIRST, 501));
    let mut last = [0u8; 510];
    buffers::copy_into(&mut last, 0, buffers::part_at(bytes, LAST, 510));
    Record {
        kind: buffers::num_at(bytes, 0),
        name,
        page: buffers::num_at(bytes, 1),
        offset: slots::two_at(bytes, 2),
        exec,
        info,
        used,
        tracks: buffers::num_at(bytes, 4),
        long: long_in(bytes),
        first,
        last,
    }
}

// The bytes before the name.
fn front_of(held: &Record) -> [u8; 12]
    ensures { result ≡ front_of held.now }
{
    let offset = held.offset.to_le_bytes();
    let long = held.long.to_le_bytes();
    [
        (held.kind % 256) as u8,
        (held.page % 256) as u8,
        offset[0],
        offset[1],
        (held.tracks % 256) as u8,
        0,
        0,
        0,
        long[0],
        long[1],
        long[2],
        long[3],
    ]
}

// The bytes of a record.
fn bytes_of(held: &Record) -> [u8; 2048]
    ensures { result ≡ bytes_of held.now }
{
    let mut bytes = [0u8; 2048];
    let front = front_of(held);
    buffers::copy_into(&mut bytes, 0, &front);
    buffers::copy_into(&mut bytes, NAME, &held.name);
    buffers::copy_into(&mut bytes, EXEC, &held.exec);
    buffers::copy_into(&mut bytes, INFO, &held.info);
    buffers::copy_into(&mut bytes, USED, &held.used);
    buffers::copy_into(&mut bytes, FIRST, &held.first);
    buffers::copy_into(&mut bytes, LAST, &held.last);
    bytes
}

// Puts the bytes of a record to the front of a buffer, whose rest stays.
pub fn put_opened(bytes: &mut [u8], held: &Record)
    ensures { bytes.new ≡ put bytes.old 0 (bytes_of held.now) }
{
    let all = bytes_of(held);
    buffers::copy_into(bytes, 0, &all);
}

// Puts what a piece changes of a record: how many bytes came, and those that wait.
pub fn put_grown(bytes: &mut [u8], held: &Record)
    ensures { bytes.new ≡ record_bytes_with bytes.old held.now }
{
    let long = held.long.to_le_bytes();
    buffers::copy_into(bytes, LONG, &long[..4]);
    buffers::copy_into(bytes, FIRST, &held.first);
    buffers::copy_into(bytes, LAST, &held.last);
}
