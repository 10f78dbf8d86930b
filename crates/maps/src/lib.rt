// Maps of 195 bytes, a bit for each data sector, worked on by bytes.
#![tactic(auto)]

ghost use Rattle.std.specs.Prelude.{◌≡◌, ◌≤◌};
ghost use Rattle.maps.specs.Bits.{has, bits_of, share, join, with_bit};

// The bytes of a map.
pub const MAP_BYTES: usize = 195;

// Whether bit `b` is set; past the end of the map it is not.
#[tactic(auto, unfolding(crate::specs::Bits::has))]
pub fn has_bit(m: &[u8], b: usize) -> bool
    ensures { result ≡ has m.now b }
{
    (buffers::byte_at(m, b / 8) >> (b % 8)) % 2 == 1
}

// How many of the 1,560 bits are set: eight bytes at a time first, then the bytes that are left.
pub fn bits_of(m: &[u8]) -> usize
    ensures { (result ≡ bits_of m.now) × (result ≤ 1560) }
{
    let (words, rest) = m[..MAP_BYTES.min(m.len())].as_chunks::<8>();
    let mut sum = 0;
    for word in words {
        sum += u64::from_le_bytes(*word).count_ones() as usize;
    }
    for byte in rest {
        sum += u32::from(*byte).count_ones() as usize;
    }
    sum
}

// Whether two maps share a bit: one test, after the loop.
pub fn shares(m: &[u8], d: &[u8]) -> bool
    ensures { result ≡ share m.now d.now }
{
    let mut common = 0u8;
    for i in 0..MAP_BYTES.min(m.len()).min(d.len()) {
        common |= m[i] & d[i];
    }
    common != 0
}

// Sets in `m` the bits of `d` as well; where `d` is longer, those of its bytes that `m` has.
pub fn join_into(m: &mut [u8], d: &[u8])
    ensures { m.new ≡ join m.old d.now }
{
    for i in 0..m.len().min(d.len()) {
        m[i] |= d[i];
    }
}

// Sets bit `b` of `m`; past the end there is none to set.
pub fn set_bit(m: &mut [u8], b: usize)
    ensures { m.new ≡ with_bit m.old b }
{
    let k = b / 8;
    if k < m.len() {
        m[k] |= 1 << (b % 8);
    }
}
