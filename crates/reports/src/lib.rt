// The class of a sector count, in a report over disks: how many are accepted, refused by each number, and what files the
// accepted hold.
#![tactic(auto)]

ghost use Rattle.std.specs.Prelude.{◌≡◌, true, ◌<◌};
ghost use Rattle.reports.specs.Numbers.{in_class};

// The class of a sector count: 0, 1, 2 to 3, 4 to 7, .., 1,024 and more.
pub fn class_of(count: usize) -> usize
    ensures { (in_class result count ≡ true) × (result < 12) }
{
    let mut next: usize = 1;
    for class in 0..11 {
        if count < next {
            return class;
        }
        next = 2 * next;
    }
    11
}
