// The slots of a map, a bit to a slot: the sectors of the directory that they lie in, and their first bytes set to 0.
#![tactic(auto)]

ghost use Rattle.std.specs.Prelude.{◌≡◌, ◌<◌, length};
ghost use Rattle.maps.specs.Bits.{has};
ghost use Rattle.directory.specs.Places.{slots};
ghost use Rattle.erase_many.specs.EraseMany.{pairs, touches, sectors_with};
ghost use Rattle.erase_many.specs.ErasedMap.{slots_cleared};
ghost use Rattle.slot_erasing.specs.Listed.{PutInFront};

// The most sectors that a directory has.
pub const DIR_SECTORS: usize = 389;

// Sets byte 0 of every slot of the map to 0.
pub fn erase_slots(image: &mut [u8], map: &[u8])
    ensures { image.new ≡ slots_cleared image.old (has map.now) slots }
{
    for i in 0..directory::SLOTS {
        if maps::has_bit(map, i) {
            buffers::copy_into(image, directory::slot_place(i), &[0]);
        }
    }
}

// Whether one of the two slots in the `j`-th sector of the directory, from 0, is in the map.
fn is_touched(map: &[u8], j: usize) -> bool
    requires { j < pairs }
    ensures { result ≡ touches (has map.now) j }
{
    maps::has_bit(map, 2 * j) || maps::has_bit(map, 2 * j + 1)
}

// The sectors that have a slot of the map, rising, to the front of a list, as far as it goes; how many there are.
pub fn list_sectors(map: &[u8], list: &mut [u16]) -> usize
    ensures { PutInFront list.old (sectors_with (has map.now)) list.new result }
{
    let mut at: usize = 0;
    for j in 0..DIR_SECTORS {
        if is_touched(map, j) {
            buffers::put_number(list, at, directory::dir_sector(2 * j) as u16);
            at += 1;
        }
    }
    at
}

// How many sectors have a slot of the map.
pub fn count_sectors(map: &[u8]) -> usize
    ensures { result ≡ length (sectors_with (has map.now)) }
{
    list_sectors(map, &mut [])
}
