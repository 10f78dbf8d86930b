// The calls that change a disk, each with the line of its answer.
ghost use Rattle.std.specs.Prelude.{[]};
ghost use Rattle.plans.specs.Change.{erase, rename, mark, save};
ghost use Rattle.changes.specs.Marks.{mark_of};
ghost use Rattle.saves.specs.Write.{save_request};
ghost use Rattle.points.specs.Calls.{Leaves};

use allocation::HeaderFields;
use changes::Marking;

// The files that most programs save.
pub const CODE: HeaderFields = HeaderFields {
    kind: 19,
    page: 29,
    offset: 32768,
};

// A program in BASIC.
pub const BASIC: HeaderFields = HeaderFields {
    kind: 16,
    page: 0,
    offset: 32768,
};

pub fn saved_as(
    what: &[u8],
    image: &mut [u8],
    file: HeaderFields,
    name: &[u8],
    body: &[u8],
    list: &mut [u16],
)
    ensures { Leaves (save (save_request file.kind name.now file.page file.offset [] [] body.now)) image.old list.old image.new list.new }
{
    crate::title(b"save of ", what);
    let answer = saves::save(
        image,
        file.kind,
        name,
        file.page,
        file.offset,
        b"",
        b"",
        body,
        list,
    );
    crate::print_change(answer, list);
}

pub fn saved(what: &[u8], image: &mut [u8], name: &[u8], body: &[u8], list: &mut [u16])
    ensures { Leaves (save (save_request 19 name.now 29 32768 [] [] body.now)) image.old list.old image.new list.new }
{
    saved_as(what, image, CODE, name, body, list);
}

pub fn erased_as(what: &[u8], image: &mut [u8], name: &[u8], list: &mut [u16])
    ensures { Leaves (erase name.now) image.old list.old image.new list.new }
{
    crate::title(b"erase of ", what);
    let answer = changes::erase(image, name, list);
    crate::print_change(answer, list);
}

pub fn erased(image: &mut [u8], name: &[u8], list: &mut [u16])
    ensures { Leaves (erase name.now) image.old list.old image.new list.new }
{
    erased_as(name, image, name, list);
}

pub fn renamed(image: &mut [u8], name: &[u8], new: &[u8], list: &mut [u16])
    ensures { Leaves (rename name.now new.now) image.old list.old image.new list.new }
{
    crate::title(b"rename of ", name);
    crate::title(b"to ", new);
    let answer = changes::rename(image, name, new, list);
    crate::print_change(answer, list);
}

pub fn marked(call: &[u8], image: &mut [u8], name: &[u8], marking: Marking, list: &mut [u16])
    ensures { Leaves (mark (mark_of marking) name.now) image.old list.old image.new list.new }
{
    crate::title(call, name);
    let answer = changes::set_mark(image, name, marking, list);
    crate::print_change(answer, list);
}
