// Names in order: keys of members, strictly ascending by id. A key stands for the identity that its member has.
ghost use Rattle.std.specs.Prelude.{◌≡◌, ◌∷◌, ◌++◌, ◌+◌, ◌-◌, ◌≤◌, ◌<◌, length, take, drop};
ghost use Rattle.rules.specs.Library.{Library};
ghost use Rattle.obj.specs.Ids.{id_meant};
ghost use Rattle.first_hits.specs.Names.{Listed, Placed};

use obj::{Id, id_of, order_ids};
use objects::ObjKey;
use std::cmp::Ordering;

// By binary search in the first n names: by hand, since `binary_search_by` asks for a closure that may be called at every word, and an id is a member's (tried).
pub fn place_of(text: &[u8], rows: &[u32], names: &[u32], n: usize, id: Id) -> Result<usize, usize>
    requires { Library text.now rows.now × Listed text.now rows.now (take n names.now) × (n ≤ length names.now) }
    ensures { Placed text.now rows.now (take n names.now) (id_meant text.now id) result }
{
    let mut low: usize = 0;
    let mut high = n;
    while low < high {
        let mid = low + (high - low) / 2;
        let other = id_of(text, rows, ObjKey(names[mid]));
        match order_ids(text, other, id) {
            Ordering::Less => low = mid + 1,
            Ordering::Equal => return Ok(mid),
            Ordering::Greater => high = mid,
        }
    }
    Err(low)
}

// The key k stands at place i of the first n names, those behind it one place further.
pub fn put_name(names: &mut [u32], n: usize, i: usize, k: u32)
    requires { (i ≤ n) × (n < length names.old) }
    ensures names_after { take (n + 1) names.new ≡ take i (take n names.old) ++ (k ∷ drop i (take n names.old)) }
    ensures names_len_unchanged { length names.new ≡ length names.old }
{
    names.copy_within(i..n, i + 1);
    names[i] = k;
}
