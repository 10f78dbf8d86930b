// Rows 26 to 28, which the listing of a directory asks for: whether the directories of a disk make a tree; and row 29, which
// an erase asks for. All of it goes by the directory's bytes alone, and answers for a slice of any length.
#![tactic(auto)]

ghost use Rattle.std.specs.Prelude.{◌≡◌, ◌-◌, get_or, replicate};
ghost use Rattle.buffers.specs.Bytes.{any};
ghost use Rattle.refusals.specs.Order.{rows, scan};
ghost use Rattle.refusals.specs.Answers.{reply_of};
ghost use Rattle.directory.specs.Places.{slots};
ghost use Rattle.directory.specs.Directory.{directory, slots_read};
ghost use Rattle.trees.specs.Tree.{place_at, occupied};
ghost use Rattle.nesting.specs.Steps.{not_erased, in_other, back_by, is_orphan, nesting_rows_by, Tabled, Passed, Tables, Nests};

use refusals::{Reason, Refused};

// The directories by their codes: 0 where none has the code, else one more than the code of the directory that it is in.
// And how many there are.
#[derive(Clone, Copy)]
struct Codes<'a> {
    dir: &'a [u8],
    above: &'a [u16],
    number: usize,
    ghost tabled: { Tabled (directory dir.now) above.now number },
}

impl Codes<'_> {
    // An entry of the table; 0 past its end. Not by `get`: a thing that may not change, cross/guard, refuses an Option of a
    // reference, which lies otherwise where pointers have 32 bits.
    #[tactic(auto, using(buffers::proofs::Lists::past_end))]
    fn entry_at(&self, code: usize) -> u16
        ensures { result ≡ get_or self.now.above.now code 0 }
    {
        if code < self.above.len() {
            self.above[code]
        } else {
            0
        }
    }

    // The code of the directory above, by the table; the root's, which is 0, where no directory is.
    fn step_up(&self, code: usize) -> usize
        ensures { result ≡ get_or self.now.above.now code 0 - 1 }
    {
        usize::from(self.entry_at(code)).saturating_sub(1)
    }

    // Whether going up from a directory comes back to it, within as many steps as there are directories. `passed` has those
    // codes that it need not go on from: the root's, and of a directory that does not come back to itself, for what leads to
    // such a one does not come back either.
    fn comes_back(&self, passed: &[u8], code: usize) -> bool
        requires { Passed self.now.above.now passed.now self.now.number }
        ensures { result ≡ back_by self.now.above.now self.now.number code }
    {
        let mut at = code;
        for _n in 0..self.number {
            at = self.step_up(at);
            if at == code {
                return true;
            }
            if buffers::byte_at(passed, at) != 0 {
                return false;
            }
        }
        false
    }

    // Whether a slot is in a directory that there is not.
    fn is_orphan(&self, s: &[u8]) -> bool
        ensures { result ≡ is_orphan self.now.above.now s.now }
    {
        let parent = slots::parent_of(s);
        parent != 0 && self.entry_at(parent) == 0
    }

    // 27 and 28 at a live slot.
    fn place_rows(&self, passed: &[u8], s: &[u8], slot: usize) -> Result<(), Refused>
        requires { Passed self.now.above.now passed.now self.now.number }
        ensures { reply_of result ≡ rows slot (nesting_rows_by self.now.above.now self.now.number s.now) }
    {
        if self.is_orphan(s) {
            return refusals::refuse(Reason::NoSuchDirectory, slot);
        }
        if slots::is_directory(s) && self.comes_back(passed, slots::code_of(s)) {
            return refusals::refuse(Reason::InsideItself, slot);
        }
        Ok(())
    }

    // 27 and 28 at all slots.
    fn all_places(&self) -> Result<(), Refused>
        ensures { reply_of result ≡ scan slots (place_at (directory self.now.dir.now)) }
    {
        // At first the root's code alone is passed.
        let mut passed = [0u8; 256];
        passed[0] = 1;
        for i in 0..directory::slots_read(self.dir) {
            let s = directory::slot_at(self.dir, i);
            if slots::is_live(s) {
                self.place_rows(&passed, s, i + 1)?;
                if slots::is_directory(s) {
                    passed[slots::code_of(s)] = 1;
                }
            }
        }
        Ok(())
    }
}

// 26 at all slots; and the table of the directories, in one with nothing yet, and how many there are.
fn all_codes(dir: &[u8], above: &mut [u16; 256]) -> Result<usize, Refused>
    requires { above.old ≡ replicate 256 0 }
    ensures { Tables dir.now result above.new }
{
    let mut number: usize = 0;
    for i in 0..directory::slots_read(dir) {
        let s = directory::slot_at(dir, i);
        if slots::is_live(s) && slots::is_directory(s) {
            let code = slots::code_of(s);
            if code == 0 || above[code] != 0 {
                return refusals::refuse(Reason::CodeNotOwn, i + 1);
            }
            above[code] = (slots::parent_of(s) + 1) as u16;
            number += 1;
        }
    }
    Ok(number)
}

// 26 to 28: whether the directories make a tree, and how many there are.
pub fn survey_nesting(dir: &[u8]) -> Result<usize, Refused>
    ensures { Nests dir.now result }
{
    let mut above = [0u16; 256];
    let number = all_codes(dir, &mut above)?;
    let codes = Codes {
        dir,
        above: &above,
        number,
    };
    codes.all_places()?;
    Ok(number)
}

// Whether a slot other than slot `i` is live, not in a map of erased slots, and in the directory with a code.
fn holds_other(dir: &[u8], end: usize, erased: &[u8], i: usize, code: usize) -> bool
    requires { end ≡ slots_read dir.now }
    ensures { result ≡ any slots (in_other (not_erased (directory dir.now) erased.now) i code) }
{
    for j in 0..end {
        let s = directory::slot_at(dir, j);
        if j != i && slots::parent_of(s) == code && slots::is_live(s) && !maps::has_bit(erased, j) {
            return true;
        }
    }
    false
}

// A directory, with how many of its slots are read: a caller that asks for many slots counts them once.
#[derive(Clone, Copy)]
pub struct ReadSlots<'a> {
    pub dir: &'a [u8],
    pub end: usize,
    ghost counted: { end ≡ slots_read dir.now },
}

// Row 29 over the slots that are not in a map of erased ones.
pub fn is_occupied_yet(read: &ReadSlots, erased: &[u8], i: usize, s: &[u8]) -> bool
    ensures { result ≡ occupied (not_erased (directory read.now.dir.now) erased.now) i s.now }
{
    if !slots::is_directory(s) {
        return false;
    }
    let code = slots::code_of(s);
    code != 0 && holds_other(read.dir, read.end, erased, i, code)
}

// Row 29 of slot `i`, counted from 0, whose bytes are `s`: a directory whose code, not 0, is another live slot's byte 254.
pub fn is_occupied(dir: &[u8], i: usize, s: &[u8]) -> bool
    ensures { result ≡ occupied (directory dir.now) i s.now }
{
    // The slots are counted only for a slot that another can be in.
    let can_hold = slots::is_directory(s);
    if !can_hold {
        return false;
    }
    let code = slots::code_of(s);
    if code == 0 {
        return false;
    }
    let end = directory::slots_read(dir);
    is_occupied_yet(&ReadSlots { dir, end }, &[], i, s)
}
