// The changes to one slot: erase, rename, and the four marks. Each tests all that it can refuse before it writes,
// and it writes the directory sector of that slot alone.
#![tactic(auto)]

ghost use Rattle.std.specs.Prelude.{◌≡◌, ◌+◌};
ghost use Rattle.buffers.specs.Bytes.{put};
ghost use Rattle.directory.specs.Places.{slot_at};
ghost use Rattle.directory.specs.Directory.{directory};
ghost use Rattle.directory.specs.Find.{found_at};
ghost use Rattle.disk.specs.View.{view};
ghost use Rattle.files.specs.Calls.{file_at};
ghost use Rattle.plans.specs.Plan.{taken_by};
ghost use Rattle.plans.specs.Change.{erase, rename, mark, marked_byte, all_between, usable};
ghost use Rattle.changes.specs.Marks.{mark_of};
ghost use Rattle.changes.specs.ChangeCalls.{ReturnsChange, ReturnsPlan, put_plan, put_unless_protected, erase_plan, rename_plan, FileInSlot, ByteInSlot, NewNameInSlot};

use refusals::{Reason, Refused, refuse};

// Whether every byte of a name is one of 32 to 126.
fn is_printable(name: &[u8]) -> bool
    ensures { result ≡ all_between 32 name.now 126 }
{
    for b in name {
        if *b < 32 || 126 < *b {
            return false;
        }
    }
    true
}

// Whether a name can be given to a file.
#[tactic(auto, unfolding(plans::specs::Change::usable))]
pub fn is_usable(name: &[u8]) -> bool
    ensures { result ≡ usable name.now }
{
    names::is_askable(name) && is_printable(name) && buffers::byte_at(name, 0) != 32
}

// Puts bytes at place `o` of slot `i`.
fn put_in_slot(image: &mut [u8], i: usize, o: usize, y: &[u8])
    requires { ByteInSlot image.old i o }
    ensures { image.new ≡ put image.old (slot_at i + o) y.now }
{
    buffers::copy_into(image, directory::slot_place(i) + o, y);
}

// Writes a change that only the list can still refuse.
fn touch(image: &mut [u8], i: usize, o: usize, y: &[u8], list: &mut [u16]) -> Result<usize, Refused>
    requires { ByteInSlot image.old i o }
    ensures { ReturnsPlan (put_plan image.old i o y.now) image.old list.old result image.new list.new }
{
    if list.is_empty() {
        return refuse(Reason::BufferTooShort, 0);
    }
    put_in_slot(image, i, o, y);
    buffers::put_number(list, 0, directory::dir_sector(i) as u16);
    Ok(1)
}

// The same, of a file that must not be protected.
fn touch_unprotected(
    image: &mut [u8],
    i: usize,
    o: usize,
    y: &[u8],
    list: &mut [u16],
) -> Result<usize, Refused>
    requires { ByteInSlot image.old i o }
    ensures { ReturnsPlan (put_unless_protected image.old i o y.now) image.old list.old result image.new list.new }
{
    if slots::is_protected(directory::slot_at(image, i)) {
        return refuse(Reason::FileProtected, i + 1);
    }
    touch(image, i, o, y, list)
}

// Erases the file in slot `i`, unless it is protected or a directory that another live slot is in.
fn erase_at(image: &mut [u8], i: usize, list: &mut [u16]) -> Result<usize, Refused>
    requires { FileInSlot image.old i }
    ensures { ReturnsPlan (erase_plan image.old i) image.old list.old result image.new list.new }
{
    let erased = directory::slot_at(image, i);
    if slots::is_protected(erased) {
        return refuse(Reason::FileProtected, i + 1);
    }
    if nesting::is_occupied(image, i, directory::slot_at(image, i)) {
        return refuse(Reason::DirectoryNotEmpty, i + 1);
    }
    touch(image, i, 0, &[0], list)
}

// Erases a file: its slot's first byte becomes 0.
pub fn erase(image: &mut [u8], name: &[u8], list: &mut [u16]) -> Result<usize, Refused>
    ensures { ReturnsChange (erase name.now) image.old list.old result image.new list.new }
{
    let i = files::look_up(image, name)?;
    erase_at(image, i, list)
}

// The slot that keeps the file in slot `i` from a new name: another that has it, or its own where the bytes stored are the new ones.
fn taken_by(image: &[u8], i: usize, new: &[u8]) -> Option<usize>
    requires { NewNameInSlot image.now i new.now }
    ensures { found_at result ≡ taken_by (directory image.now) i (file_at (view image.now) i) new.now }
{
    let j = directory::find(image, new)?;
    let own = slots::name_of(directory::slot_at(image, i));
    if j == i && !names::same_bytes(own, &names::padded_name(new)) {
        return None;
    }
    Some(j)
}

// Gives the file in slot `i` a name that is fit for one.
fn rename_at(image: &mut [u8], i: usize, new: &[u8], list: &mut [u16]) -> Result<usize, Refused>
    requires { NewNameInSlot image.old i new.now }
    ensures { ReturnsPlan (rename_plan image.old i new.now) image.old list.old result image.new list.new }
{
    match taken_by(image, i, new) {
        Some(j) => refuse(Reason::NameTaken, j + 1),
        None => touch_unprotected(image, i, 1, &names::padded_name(new), list),
    }
}

// Renames a file. Both names are tested before either is looked for.
pub fn rename(image: &mut [u8], name: &[u8], new: &[u8], list: &mut [u16]) -> Result<usize, Refused>
    ensures { ReturnsChange (rename name.now new.now) image.old list.old result image.new list.new }
{
    disk::check(image)?;
    if !names::is_askable(name) {
        return refuse(Reason::NameNotUsable, 0);
    }
    if !is_usable(new) {
        return refuse(Reason::NameNotUsable, 0);
    }
    match directory::find(image, name) {
        Some(i) => rename_at(image, i, new, list),
        None => refuse(Reason::NameNotFound, 0),
    }
}

// The four marks.
#[derive(Clone, Copy, Debug, PartialEq, Eq)]
pub enum Marking {
    Hide,
    Show,
    Protect,
    Release,
}

// A slot's first byte with one bit set or cleared: bit 7 is hidden, bit 6 protected.
#[tactic(auto, using(crate::proofs::Bits::hide_bits, crate::proofs::Bits::show_bits, crate::proofs::Bits::protect_bits, crate::proofs::Bits::release_bits))]
fn marked_byte(marking: Marking, x: u8) -> u8
    ensures { result ≡ marked_byte (mark_of marking) x }
{
    match marking {
        Marking::Hide => x | 128,
        Marking::Show => x & 127,
        Marking::Protect => x | 64,
        Marking::Release => x & 191,
    }
}

// Marks a file; one that has the mark already is accepted.
pub fn set_mark(
    image: &mut [u8],
    name: &[u8],
    marking: Marking,
    list: &mut [u16],
) -> Result<usize, Refused>
    ensures { ReturnsChange (mark (mark_of marking) name.now) image.old list.old result image.new list.new }
{
    let i = files::look_up(image, name)?;
    let first = buffers::byte_at(directory::slot_at(image, i), 0);
    touch(image, i, 0, &[marked_byte(marking, first)], list)
}
