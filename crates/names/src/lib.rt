// Names: when two are the same, capitals or not, which can be asked for, and how one is filled to ten bytes.
#![tactic(auto)]

ghost use Rattle.std.specs.Prelude.{◌≡◌};
ghost use Rattle.buffers.specs.Bytes.{part};
ghost use Rattle.names.specs.Name.{same_name, same_bytes, lower, askable, padded, key_of};

// Whether two runs of bytes are the same, byte for byte.
pub fn same_bytes(a: &[u8], b: &[u8]) -> bool
    ensures { result ≡ same_bytes a.now b.now }
{
    a == b
}

// A capital letter as its small one, every other byte as it is.
#[tactic(auto, unfolding(crate::specs::Name::lower))]
fn lower(b: u8) -> u8
    ensures { result ≡ lower b }
{
    match b {
        b'A'..=b'Z' => b + 32,
        _ => b,
    }
}

// Whether two names are the same, capitals or not. Case is looked at only where two bytes differ: `eq_ignore_ascii_case`, which
// makes both small, was tried, and takes twice as long over equal names. By an index and not over pairs: an iterator's step
// answers an Option of references, which cross/guard refuses (see `buffers::byte_at`).
pub fn same_name(a: &[u8], b: &[u8]) -> bool
    ensures { result ≡ same_name a.now b.now }
{
    if a.len() != b.len() {
        return false;
    }
    for i in 0..a.len() {
        if a[i] != b[i] && lower(a[i]) != lower(b[i]) {
            return false;
        }
    }
    true
}

// Bit 5 of each of eight bytes, in which alone the two cases of a letter differ.
const CASE_BITS: u64 = 0x2020_2020_2020_2020;

// A number that all spellings of a name share, and that tells most names apart: the first eight bytes and the last, with no
// regard to case.
pub fn key_of(name: &[u8]) -> u64
    ensures { result ≡ key_of name.now }
{
    (buffers::word_at(name, 0) | CASE_BITS) ^ (buffers::word_at(name, 2) | CASE_BITS)
}

// Whether a name can be asked for.
#[tactic(auto, unfolding(crate::specs::Name::askable))]
pub fn is_askable(name: &[u8]) -> bool
    ensures { result ≡ askable name.now }
{
    1 <= name.len() && name.len() <= 10 && buffers::byte_at(name, 0) != 0
}

// A name filled to ten bytes; of a longer one the first ten.
pub fn padded_name(name: &[u8]) -> [u8; 10]
    ensures { result ≡ part 0 10 (padded name.now) }
{
    let mut filled = [b' '; 10];
    buffers::copy_into(&mut filled, 0, name);
    filled
}
