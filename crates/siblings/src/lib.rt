// The slots of each directory, linked: to go from slot to slot of one directory without passing the others.
#![tactic(auto)]

ghost use Rattle.std.specs.Prelude.{◌≡◌};
ghost use Rattle.directory.specs.Directory.{directory};
ghost use Rattle.siblings.specs.Links.{links_of, link_entry};

// An entry of the table; 0 past its end, as the definition has it. Not by `get`: cross/guard refuses the Option of a reference, which
// lies otherwise where pointers have 32 bits.
#[tactic(auto, unfolding(crate::specs::Links::link_entry))]
pub fn link_at(links: &[u16; 1034], k: usize) -> usize
    ensures { result ≡ link_entry links.now k }
{
    if k < links.len() {
        usize::from(links[k])
    } else {
        0
    }
}

// 256 numbers by code, the first slot in the directory with that code; then one for each slot, the next slot in the directory
// that it is in. Slots are counted from 0, and 778 says that there is none. From the last slot to the first, each is put in front
// of those that its directory has. In a table that is lent: one that is answered and then lent again lies on the stack twice.
pub fn link_into(dir: &[u8], links: &mut [u16; 1034])
    ensures { links.new ≡ links_of (directory dir.now) }
{
    for k in 0..1034 {
        links[k] = 778;
    }
    for i in (0..directory::slots_read(dir)).rev() {
        let s = directory::slot_at(dir, i);
        if slots::is_live(s) {
            let code = slots::parent_of(s);
            links[256 + i] = links[code];
            links[code] = i as u16;
        }
    }
}

// The same as a table of its own.
pub fn link_slots(dir: &[u8]) -> [u16; 1034]
    ensures { result ≡ links_of (directory dir.now) }
{
    let mut links = [778u16; 1034];
    link_into(dir, &mut links);
    links
}
