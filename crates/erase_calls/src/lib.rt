// Erasing many files at once. The names are answered first, on a map of the slots erased so far; then the sectors that
// change are counted; and only then anything is written.
#![tactic(auto)]

ghost use Rattle.std.specs.Prelude.{◌≡◌, ◌*◌, ◌<◌, ◌≤◌, ltb, length};
ghost use Rattle.maps.specs.Bits.{has};
ghost use Rattle.refusals.specs.Answers.{outcome_of};
ghost use Rattle.directory.specs.Directory.{directory};
ghost use Rattle.directory.specs.Find.{find, found_at};
ghost use Rattle.nesting.specs.Steps.{not_erased};
ghost use Rattle.erase_many.specs.EraseMany.{sectors_with, erased, erase_many};
ghost use Rattle.erase_many.specs.ErasedMap.{none_erased, erased_map};
ghost use Rattle.erase_calls.specs.Index.{buckets, bucket_of, EmptyIndex, Indexed};
ghost use Rattle.erase_calls.specs.Erasing.{number_or_done, OneErased, AllErased, ErasesAllowed};

use refusals::{Reason, Refused};

// How many buckets an index has.
const BUCKETS: usize = 251;

// The live slots of a directory by their names, and how many slots are read. `links` has for each bucket its lowest slot, and
// behind these for each live slot the next of its bucket.
#[derive(Clone, Copy)]
struct NameIndex<'a> {
    dir: &'a [u8],
    links: &'a [u16],
    end: usize,
    ghost indexed: { Indexed dir.now links.now end },
}

// The bucket of a name. 251 stands here as a literal: any other divisor is tested for 0 first, and that test ends in a trap, which
// cross/guard does not know.
#[tactic(auto, unfolding(crate::specs::Index::bucket_of))]
fn bucket_of(name: &[u8]) -> usize
    ensures { (result ≡ bucket_of name.now) × (result < buckets) }
{
    (names::key_of(name) % 251) as usize
}

// Links the live slots by their names, from the last slot to the first; how many slots are read.
fn link_names(dir: &[u8], links: &mut [u16]) -> usize
    requires { EmptyIndex links.old }
    ensures { Indexed dir.now links.new result }
{
    let end = directory::slots_read(dir);
    for i in (0..end).rev() {
        let s = directory::slot_at(dir, i);
        if slots::is_live(s) {
            let b = bucket_of(slots::name_of(s));
            links[BUCKETS + i] = links[b];
            links[b] = i as u16;
        }
    }
    end
}

// The byte that answers an erase: the number of its refusal, or 0.
fn answer_byte(erased: Result<(), Reason>) -> u8
    ensures { result ≡ number_or_done erased }
{
    match erased {
        Ok(()) => 0,
        Err(reason) => reason.number() as u8,
    }
}

impl NameIndex<'_> {
    // The lowest live slot that is not erased yet and has a name of ten bytes. Only slots of the name's bucket are looked at.
    fn find_left(&self, map: &[u8], name: &[u8]) -> Option<usize>
        requires { length name.now ≡ 10 }
        ensures { found_at result ≡ find (not_erased (directory self.now.dir.now) map.now) name.now }
    {
        let mut c = usize::from(self.links[bucket_of(name)]);
        // no plainer: a walk along links, not over places that follow each other
        while c < directory::SLOTS {
            let i = c;
            c = usize::from(self.links[BUCKETS + i]);
            if !maps::has_bit(map, i) && slots::is_named(directory::slot_at(self.dir, i), name) {
                return Some(i);
            }
        }
        None
    }

    // One erase by its name: its slot marked where it is done.
    fn erase_one(&self, map: &mut [u8], name: &[u8]) -> Result<(), Reason>
        requires { length name.now ≡ 10 }
        ensures { OneErased (directory self.now.dir.now) map.old name.now result map.new }
    {
        if !names::is_askable(name) {
            return Err(Reason::NameNotUsable);
        }
        let Some(i) = self.find_left(map, name) else {
            return Err(Reason::NameNotFound);
        };
        let s = directory::slot_at(self.dir, i);
        if slots::is_protected(s) {
            return Err(Reason::FileProtected);
        }
        let read = nesting::ReadSlots {
            dir: self.dir,
            end: self.end,
        };
        if nesting::is_occupied_yet(&read, map, i, s) {
            return Err(Reason::DirectoryNotEmpty);
        }
        maps::set_bit(map, i);
        Ok(())
    }

    // All of them, in order; answers past the end of the buffer are left out.
    fn erase_each(&self, names: &[u8], many: usize, answers: &mut [u8], map: &mut [u8])
        requires tens { 10 * many ≤ length names.now }
        requires none { map.old ≡ none_erased }
        ensures { AllErased (directory self.now.dir.now) names.now many answers.old answers.new map.new }
    {
        for k in 0..many {
            let name = buffers::part_at(names, 10 * k, 10);
            let erased = self.erase_one(map, name);
            buffers::copy_into(answers, k, &[answer_byte(erased)]);
        }
    }

    // Whether a list with room for so many numbers is too short. No list is that has room for every sector of the directory:
    // then the names need not be answered for it.
    #[tactic(auto, unfolding(erase_many::specs::ErasedMap::none_erased))]
    fn is_short(&self, names: &[u8], many: usize, room: usize) -> bool
        requires { 10 * many ≤ length names.now }
        ensures { result ≡ ltb room (length (sectors_with (has (erased_map (directory self.now.dir.now) names.now many)))) }
    {
        if slot_erasing::DIR_SECTORS <= room {
            return false;
        }
        let mut map = [0u8; 98];
        self.erase_each(names, many, &mut [], &mut map);
        room < slot_erasing::count_sectors(&map)
    }
}

// The same of an accepted disk and a whole number of names; 20 is tested before anything is written.
#[tactic(auto, unfolding(erase_many::specs::ErasedMap::none_erased))]
fn erase_names(
    image: &mut [u8],
    names: &[u8],
    answers: &mut [u8],
    list: &mut [u16],
) -> Result<usize, Refused>
    requires { ErasesAllowed image.old names.now }
    ensures { erased (outcome_of result) image.new answers.new list.new ≡ erase_many image.old names.now answers.old list.old }
{
    let many = names.len() / 10;
    if answers.len() < many {
        return refusals::refuse(Reason::BufferTooShort, 0);
    }
    let mut links = [directory::SLOTS as u16; BUCKETS + directory::SLOTS];
    let end = link_names(image, &mut links);
    let index = NameIndex {
        dir: image,
        links: &links,
        end,
    };
    if index.is_short(names, many, list.len()) {
        return refusals::refuse(Reason::BufferTooShort, 0);
    }
    let mut map = [0u8; 98];
    index.erase_each(names, many, answers, &mut map);
    let sectors = slot_erasing::list_sectors(&map, list);
    slot_erasing::erase_slots(image, &map);
    Ok(sectors)
}

// Erases the files with the names, ten bytes each, laid end to end: an answer to each, one byte, and the numbers of the sectors
// that changed, rising; how many sectors.
pub fn erase_many(
    image: &mut [u8],
    names: &[u8],
    answers: &mut [u8],
    list: &mut [u16],
) -> Result<usize, Refused>
    ensures { erased (outcome_of result) image.new answers.new list.new ≡ erase_many image.old names.now answers.old list.old }
{
    disk::check(image)?;
    if names.len() % 10 != 0 {
        return refusals::refuse(Reason::NamesNotTens, 0);
    }
    erase_names(image, names, answers, list)
}
