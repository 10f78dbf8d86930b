// Bytes of a lent buffer: a byte, eight as one number, a part, a run of bytes copied.
#![tactic(auto)]

ghost use Rattle.std.specs.Prelude.{◌≡◌, ℕ, ◌+◌, ◌-◌, ◌≤◌, ◌<◌, [], ◌∷◌, length, get_or};
ghost use Rattle.buffers.specs.Bytes.{part, put, word, word_or};

// The byte at a place, and 0 past the end. Not by `get`: the pair that an Option<&u8> is answered as lies otherwise where pointers
// have 32 bits, so cross/guard refuses it.
#[tactic(auto, using(crate::proofs::Lists::past_end))]
pub fn byte_at(s: &[u8], i: usize) -> u8
    ensures { result ≡ get_or s.now i 0 }
{
    if i < s.len() { s[i] } else { 0 }
}

// The same as a number that can be reckoned with.
pub fn num_at(s: &[u8], i: usize) -> usize
    ensures { (result ≡ get_or s.now i 0) × (result < 256) }
{
    usize::from(byte_at(s, i))
}

// Eight bytes as one number, low byte first, which the compiler makes one load; 0 where the eight are not all there. Not by
// `first_chunk`, which answers an Option of a reference as `get` does.
pub fn word_at(s: &[u8], i: usize) -> u64
    ensures { result ≡ word_or s.now i }
{
    if s.len() < 8 || s.len() - 8 < i {
        return 0;
    }
    u64::from_le_bytes([
        s[i],
        s[i + 1],
        s[i + 2],
        s[i + 3],
        s[i + 4],
        s[i + 5],
        s[i + 6],
        s[i + 7],
    ])
}

// The `n` bytes at a place, uncopied; fewer where the slice ends before.
pub fn part_at(s: &[u8], at: usize, n: usize) -> &[u8]
    ensures { result.now ≡ part at n s.now }
{
    let start = at.min(s.len());
    let end = start + n.min(s.len() - start);
    &s[start..end]
}

// All of `from`, put at a place of `out` where it fits. Not by copy_from_slice: it compares the addresses of the two as numbers
// of 64 bits, which cross/guard refuses, since the library is built for machines with pointers of 32 bits too.
fn copy(out: &mut [u8], at: usize, from: &[u8])
    requires { at + length from.now ≤ length out.old }
    ensures { out.new ≡ put out.old at from.now }
{
    for j in 0..from.len() {
        out[at + j] = from[j];
    }
}

// The same of a run by way of an array, which overlaps neither slice: so the compiler sees two block copies, makes them
// one, and the array goes.
fn copy_run(out: &mut [u8], at: usize, from: &[u8])
    requires { (at + length from.now ≤ length out.old) × (length from.now ≤ 512) }
    ensures { out.new ≡ put out.old at from.now }
{
    let mut held = [0u8; 512];
    copy(&mut held, 0, from);
    copy(out, at, &held[..from.len()]);
}

// The same of any length, run by run.
fn copy_runs(out: &mut [u8], at: usize, from: &[u8])
    requires { at + length from.now ≤ length out.old }
    ensures { out.new ≡ put out.old at from.now }
{
    for done in (0..from.len()).step_by(512) {
        let end = done + 512usize.min(from.len() - done);
        copy_run(out, at + done, &from[done..end]);
    }
}

// Puts `from` at a place of `out`; what would lie past the end of `out` is left out.
pub fn copy_into(out: &mut [u8], at: usize, from: &[u8])
    ensures { out.new ≡ put out.old at from.now }
{
    if at < out.len() {
        let n = from.len().min(out.len() - at);
        copy_runs(out, at, &from[..n]);
    }
}

// Puts one number at a place of a list, where it has that place.
#[tactic(auto, using(crate::proofs::Lists::put_one, crate::proofs::Lists::put_past))]
pub fn put_number(list: &mut [u16], at: usize, n: u16)
    ensures { list.new ≡ put list.old at (n ∷ []) }
{
    if at < list.len() {
        list[at] = n;
    }
}
