// What lies beneath a directory, to any depth: how many, and their slots.
#![tactic(auto)]

ghost use Rattle.std.specs.Prelude.{◌≡◌, ◌<◌, leb, length};
ghost use Rattle.std.proofs.Math.Option.{none};
ghost use Rattle.refusals.specs.Answers.{outcome_of, out};
ghost use Rattle.directory.specs.Directory.{directory};
ghost use Rattle.trees.specs.Tree.{beneath, tree};
ghost use Rattle.tree_lists.specs.Call.{fill_with, tree_listing};
ghost use Rattle.tree_lists.specs.Steps.{CodeAsked, FillRoom, LinkedTree, ListPut};

use refusals::{Reason, Refused};

// The slots of a disk of which none of 26 to 28 holds, linked by the directories that they are in, and how many directories there
// are.
#[derive(Clone, Copy)]
struct Tree<'a> {
    dir: &'a [u8],
    links: &'a [u16; 1034],
    number: usize,
    ghost linked: { LinkedTree dir.now links.now number },
}

// The code of the directory that has the name, 0 for an empty one, the root's; or 12, 13 and 15 of it.
fn asked_code(dir: &[u8], name: &[u8]) -> Result<usize, Refused>
    ensures { CodeAsked (directory dir.now) name.now result }
{
    if name.is_empty() {
        return Ok(0);
    }
    if !names::is_askable(name) {
        return refusals::refuse(Reason::NameNotUsable, 0);
    }
    let Some(i) = directory::find(dir, name) else {
        return refusals::refuse(Reason::NameNotFound, 0);
    };
    let s = directory::slot_at(dir, i);
    if !slots::is_directory(s) {
        return refusals::refuse(Reason::WrongKind, i + 1);
    }
    Ok(slots::code_of(s))
}

impl Tree<'_> {
    // Puts what lies beneath the directory with a code at a place of a list, as far as the list goes, and gives the place after
    // all of it; `left` directories are not yet entered. It goes from slot to slot by the links, so that it looks at those alone
    // that it puts, and it calls itself for each directory that it enters, so it keeps no more than it must.
    fn fill(&self, left: usize, code: usize, list: &mut [u16], from: usize) -> usize
        requires { FillRoom self.now.dir.now left code from }
        ensures { ListPut list.old from (beneath left (directory self.now.dir.now) code) list.new result }
    {
        let mut at = from;
        let mut i = siblings::link_at(self.links, code);
        // no plainer: a walk along links, not over places that follow each other
        while i < directory::SLOTS {
            let s = directory::slot_at(self.dir, i);
            buffers::put_number(list, at, (i + 1) as u16);
            at += 1;
            i = siblings::link_at(self.links, 256 + i);
            if slots::is_directory(s) && 0 < left {
                at = self.fill(left - 1, slots::code_of(s), list, at);
            }
        }
        at
    }

    // Whether a list of `room` numbers holds all that lies beneath the directory with a code. There are never more than slots, so
    // a list that holds as many need not be counted for.
    fn has_room(&self, code: usize, room: usize) -> bool
        requires { code < 256 }
        ensures { result ≡ leb (length (tree (directory self.now.dir.now) code)) room }
    {
        directory::SLOTS <= room || self.fill(self.number, code, &mut [], 0) <= room
    }

    // The listing of a directory by its code.
    fn list_code(&self, code: usize, list: &mut [u16]) -> Result<usize, Refused>
        requires { code < 256 }
        ensures { out (outcome_of result) list.new ≡ fill_with (tree (directory self.now.dir.now) code) none list.old }
    {
        if !self.has_room(code, list.len()) {
            return refusals::refuse(Reason::BufferTooShort, 0);
        }
        Ok(self.fill(self.number, code, list, 0))
    }
}

// What lies beneath the directory of that name, the root where it is empty: how many, and their slots to the front of `list`,
// in slot order at each level, a directory directly followed by all that lies beneath it.
pub fn list_tree(image: &[u8], name: &[u8], list: &mut [u16]) -> Result<usize, Refused>
    ensures { out (outcome_of result) list.new ≡ tree_listing image.now name.now list.old }
{
    disk::check(image)?;
    let number = nesting::survey_nesting(image)?;
    let code = asked_code(image, name)?;
    let mut links = [directory::SLOTS as u16; 1034];
    siblings::link_into(image, &mut links);
    let tree = Tree {
        dir: image,
        links: &links,
        number,
    };
    tree.list_code(code, list)
}
