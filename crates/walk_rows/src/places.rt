// The way to a row, up through the rows that it was reached from.
ghost use Rattle.std.specs.Prelude.{◌<◌, ◌≤◌, length};
ghost use Rattle.objects.specs.Bounds.{max_places};
ghost use Rattle.walk_rows.specs.Records.{level_of};
ghost use Rattle.walk_rows.specs.State.{Written};

use crate::records::record_at;
use multiples::EmbeddedType;

// The places of the way to row i, and a last one, in front of the lent row. Answers how many they are.
pub fn write_places(walk: &[EmbeddedType], places: &mut [u32], i: u32, last: u32) -> usize
    requires { (level_of walk.now i < max_places) × (max_places ≤ length places.old) }
    ensures { Written walk.now i last places.new result }
{
    let d = record_at(walk, i as usize).level as usize;
    places[d] = last;
    let mut left = d;
    let mut at = i;
    // a `while`, since it climbs a chain of parents
    while left > 0 {
        left -= 1;
        let e = record_at(walk, at as usize);
        places[left] = e.place;
        at = e.parent;
    }
    d + 1
}
