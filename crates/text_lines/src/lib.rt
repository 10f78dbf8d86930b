// The lines of the listing program: a file's, the free count's and a refusal's, put to a page.
#![tactic(auto)]

ghost use Rattle.std.specs.Prelude.{◌≡◌, cond, [], ◌∷◌, ◌+◌, ◌<◌, get_or};
ghost use Rattle.buffers.specs.Bytes.{tab};
ghost use Rattle.refusals.specs.Answers.{refusal_of};
ghost use Rattle.slots.specs.Slot.{protected, name_of};
ghost use Rattle.text_lines.specs.Lines.{digits, decimal, shown, line, slot_line, free_line, refusal_line};
ghost use Rattle.text_lines.specs.Written.{Wrote};

use refusals::Refused;

// Puts bytes to a page at a place, as many as it has room for, and answers the next place, the page's end at most; so does
// each writer here.
fn put_bytes(page: &mut [u8], at: usize, from: &[u8]) -> usize
    ensures { Wrote page.old at from.now page.new result }
{
    let len = page.len();
    if len <= at {
        return len;
    }
    buffers::copy_into(page, at, from);
    if len - at <= from.len() {
        return len;
    }
    at + from.len()
}

fn digit(n: usize) -> [u8; 1]
    requires { n < 10 }
    ensures { result ≡ (48 + n) ∷ [] }
{
    [48 + n as u8]
}

// A number in decimal digits, the last `k` of them.
fn put_digits(page: &mut [u8], at: usize, k: usize, n: usize) -> usize
    ensures { Wrote page.old at (digits k n) page.new result }
{
    if k == 0 {
        return at.min(page.len());
    }
    if n < 10 {
        let only = digit(n);
        return put_bytes(page, at, &only);
    }
    let next = put_digits(page, at, k - 1, n / 10);
    let last = digit(n % 10);
    put_bytes(page, next, &last)
}

fn put_decimal(page: &mut [u8], at: usize, n: usize) -> usize
    ensures { Wrote page.old at (decimal n) page.new result }
{
    put_digits(page, at, 4, n)
}

// A space and a number.
fn put_field(page: &mut [u8], at: usize, n: usize) -> usize
    ensures { Wrote page.old at (32 ∷ decimal n) page.new result }
{
    let next = put_bytes(page, at, b" ");
    put_decimal(page, next, n)
}

// The mark of a protected file or of another, between spaces.
fn mark_of(s: &[u8]) -> [u8; 3]
    ensures { result ≡ 32 ∷ cond (protected s.now) 42 45 ∷ 32 ∷ [] }
{
    if slots::is_protected(s) {
        *b" * "
    } else {
        *b" - "
    }
}

#[tactic(auto, unfolding(crate::specs::Lines::shown))]
fn shown_byte(b: u8) -> u8
    ensures { result ≡ shown b }
{
    if b < 32 || 126 < b { b'?' } else { b }
}

// A slot's name as it is shown.
fn shown_name(s: &[u8]) -> [u8; 10]
    ensures { result ≡ tab 10 (λ k. shown (get_or (name_of s.now) k 0)) }
{
    let name = slots::name_of(s);
    let mut visible = [0u8; 10];
    for k in 0..10 {
        visible[k] = shown_byte(buffers::byte_at(name, k));
    }
    visible
}

// The line of the slot with that number.
fn put_line(page: &mut [u8], at: usize, number: usize, s: &[u8]) -> usize
    ensures { Wrote page.old at (line number s.now) page.new result }
{
    let mark = mark_of(s);
    let name = shown_name(s);
    let a = put_decimal(page, at, number);
    let b = put_bytes(page, a, &mark);
    let c = put_bytes(page, b, &name);
    let d = put_field(page, c, slots::count_of(s));
    let e = put_field(page, d, slots::kind_of(s));
    put_bytes(page, e, b"\n")
}

// The line of a slot that is live and not hidden.
pub fn put_slot_line(page: &mut [u8], at: usize, number: usize, s: &[u8]) -> usize
    ensures { Wrote page.old at (slot_line number s.now) page.new result }
{
    if !slots::is_live(s) || slots::is_hidden(s) {
        return at.min(page.len());
    }
    put_line(page, at, number, s)
}

// The line of the free count.
pub fn put_free(page: &mut [u8], at: usize, n: usize) -> usize
    ensures { Wrote page.old at (free_line n) page.new result }
{
    let a = put_bytes(page, at, b"free ");
    let b = put_decimal(page, a, n);
    put_bytes(page, b, b"\n")
}

// The line of a refusal, at the front of the page.
pub fn put_refusal(page: &mut [u8], refused: Refused) -> usize
    ensures { Wrote page.old 0 (refusal_line (refusal_of refused)) page.new result }
{
    let a = put_bytes(page, 0, b"refused ");
    let b = put_decimal(page, a, refused.reason.number());
    let c = put_bytes(page, b, b" slot ");
    let d = put_decimal(page, c, refused.slot);
    put_bytes(page, d, b"\n")
}
