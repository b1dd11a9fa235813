// The levels, one after the other, until one has the name or none is left.
ghost use Rattle.std.specs.Prelude.{◌≡◌, true, not, ◌&&◌, ℕ, ◌*◌, ◌<◌, ◌≤◌, length};
ghost use Rattle.objects.specs.Bounds.{max_places};
ghost use Rattle.objects.specs.Table.{has_package};
ghost use Rattle.objects.specs.Rows.{package_meant, table_of, type_count};
ghost use Rattle.objects.specs.Types.{member_type_read};
ghost use Rattle.rules.specs.Library.{Library};
ghost use Rattle.rules.specs.Ways.{judged};
ghost use Rattle.ways.specs.Graph.{select};
ghost use Rattle.ways.specs.OfTable.{graph};
ghost use Rattle.selection.specs.Results.{Selects, name_meant};
ghost use Rattle.walk_rows.specs.Records.{level_of};
ghost use Rattle.walk_rows.specs.State.{Rowed};
ghost use Rattle.levels.specs.Hits.{Alone, Answers, Beside, Inside, Scratch, ways_told};

use crate::hits::next_hit;
use crate::{Found, Start};
use multiples::EmbeddedType;
use objects::ObjKey;
use objects::bounds::MAX_PLACES;
use objects::rows::{has_ptr, is_method};
use selection::{Entity, LookupResult, Name, Selection};
use walk_rows::lower::lower;
use walk_rows::places::write_places;
use walk_rows::records::{put_root, record_at};

// "a method with pointer receiver, the flag is 0 and a is 0"
fn bad_receiver(ptr: bool, flag: bool, a: bool) -> bool
    ensures { result ≡ ptr && not flag && not a }
{
    ptr && !flag && !a
}

// "One shortest way: `entry`, member, flag, places. But `badreceiver` if it is a method with pointer receiver, the flag is 0 and a is 0."
fn alone(text: &[u8], rows: &[u32], m: ObjKey, flag: bool, a: bool) -> LookupResult
    ensures { Alone text.now rows.now m flag a result }
{
    let ptr = has_ptr(rows, m);
    if bad_receiver(ptr, flag, a) {
        return LookupResult::BadMethodReceiver;
    }
    if is_method(rows, m) {
        return LookupResult::Entry(Entity::Method(m), flag);
    }
    LookupResult::Entry(Entity::Field(m), flag)
}

// The first row of a level that has the name, and the next one if there is one: the only way, or both.
fn verdict(
    text: &[u8],
    rows: &[u32],
    walk: &[EmbeddedType],
    places: &mut [u32],
    w: Found,
    next: Option<Found>,
    a: bool,
) -> Selection
    requires { (level_of walk.now w.row < max_places) × (2 * max_places ≤ length places.old) × Beside walk.now w next × ((member_type_read rows.now w.member).0 < type_count rows.now) }
    ensures { (n : ℕ) → Rowed walk.now n → w.row < n → Inside n next → Selects text.now rows.now result places.new (judged a (ways_told text.now rows.now walk.now n w next)) }
{
    let i = w.row;
    let count = write_places(walk, places, i, w.place);
    match next {
        Some(v) => {
            write_places(walk, &mut places[MAX_PLACES..], v.row, v.place);
            Selection {
                result: LookupResult::Ambiguous,
                count,
            }
        }
        None => {
            let e = record_at(walk, i as usize);
            let result = alone(text, rows, w.member, e.indirect == 1, a);
            Selection { result, count }
        }
    }
}

// The selection of the name, from where it starts.
pub fn search(
    text: &[u8],
    rows: &[u32],
    walk: &mut [EmbeddedType],
    places: &mut [u32],
    names: &[u8],
    q: Name,
    s: Start,
) -> Selection
    requires library { Library text.now rows.now }
    requires typ_bound { (s.typ.0 < type_count rows.now) × (has_package (table_of text.now rows.now) (package_meant q.pkg) ≡ true) }
    requires scratch { Scratch rows.now walk.old places.old }
    ensures { Answers text.now rows.now (name_meant text.now rows.now names.now q) result places.new (select (graph (table_of text.now rows.now)) (name_meant text.now rows.now names.now q) s.typ s.flag s.addressable) }
{
    put_root(walk, s.typ, s.flag);
    let mut lo: u32 = 0;
    let mut n: usize = 1;
    // a `while`, since each turn goes on by a whole level
    while (lo as usize) < n {
        if let Some(w) = next_hit(text, rows, walk, names, q, lo, n) {
            let next = next_hit(text, rows, walk, names, q, w.row + 1, n);
            return verdict(text, rows, walk, places, w, next, s.addressable);
        }
        let end = lower(text, rows, walk, lo, n);
        lo = n as u32;
        n = end;
    }
    Selection::NOT_FOUND
}
