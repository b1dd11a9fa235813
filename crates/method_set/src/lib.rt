// M: the method set of a type, off its kept walks. Of the names of all methods that they come to, those stay that are not hidden and whose receivers allow it.
#![tactic(auto)]

ghost use Rattle.std.specs.Prelude.{◌≡◌, ◌+◌, ◌*◌, ◌≤◌, ◌<◌, length, take};
ghost use Rattle.objects.specs.Bounds.{max_places};
ghost use Rattle.objects.specs.Lists.{In, keep};
ghost use Rattle.objects.specs.Rows.{type_count};
ghost use Rattle.rules.specs.Library.{Library};
ghost use Rattle.multiples.specs.Records.{max_records};
ghost use Rattle.walk_rows.specs.Records.{level_of};
ghost use Rattle.first_hits.specs.Hits.{Held, Room, Rooms, hit_row};
ghost use Rattle.method_set.specs.Sets.{empty_read, flag_read, in_set, sel_at, SetHeld};

use first_hits::FirstHit;
use first_hits::cover::first_hits;
use levels::all::walk_all;
use multiples::EmbeddedType;
use objects::rows::{bare, has_ptr, iface_under, named_pointer, pointer_at};
use objects::{ObjKey, TypeKey};
use walk_rows::places::write_places;
use walk_rows::records::record_at;

// ---- one name

// "An interface's method has flag 1."
fn flag_at(rows: &[u32], walk: &[EmbeddedType], i: u32) -> bool
    ensures { result ≡ flag_read rows.now walk.now i }
{
    let e = record_at(walk, i as usize);
    e.indirect == 1 || iface_under(rows, e.typ)
}

// Whether the name under key k is in the set.
fn in_set(rows: &[u32], walk: &[EmbeddedType], hits: &[FirstHit], k: u32) -> bool
    requires { Room hits.now k }
    ensures { result ≡ in_set rows.now walk.now hits.now k }
{
    let hit = hits[k as usize];
    hit.hidden != 1 && (!has_ptr(rows, ObjKey(k)) || flag_at(rows, walk, hit.row))
}

// ---- the set

// The names that are in the set come to the front, in their order. Answers how many they are.
fn keep_methods(
    rows: &[u32],
    walk: &[EmbeddedType],
    hits: &[FirstHit],
    names: &mut [u32],
    n: usize,
) -> usize
    requires n_in_bounds { n ≤ length names.old }
    requires room { (k : _) → In k (take n names.old) → Room hits.now k }
    ensures { (take result names.new ≡ keep (in_set rows.now walk.now hits.now) (take n names.old)) × (result ≤ n) }
{
    let mut r: usize = 0;
    for i in 0..n {
        let k = names[i];
        if in_set(rows, walk, hits, k) {
            names[r] = k;
            r += 1;
        }
    }
    r
}

// "a named type whose u is a pointer has an empty set"; "a pointer to any type with an interface under it has an empty set"
fn empty_set(rows: &[u32], t: TypeKey) -> bool
    ensures { result ≡ empty_read rows.now t }
{
    named_pointer(rows, t) || (pointer_at(rows, t) && iface_under(rows, bare(rows, t)))
}

// "ascending by id": the keys of the names of the set are the first words of `names`, as many as this answers; `selection` writes out what is said of each.
pub fn new(
    text: &[u8],
    rows: &[u32],
    t: TypeKey,
    walk: &mut [EmbeddedType],
    names: &mut [u32],
    hits: &mut [FirstHit],
) -> usize
    requires library { Library text.now rows.now }
    requires t_bound { (t.0 < type_count rows.now) × (2 * type_count rows.now ≤ length walk.old) × (length walk.old ≤ max_records) × Held text.now rows.now names.old 0 hits.old }
    ensures set_held { SetHeld text.now rows.now t walk.new names.new hits.new result }
    ensures rooms { Rooms rows.now hits.new }
{
    if empty_set(rows, t) {
        return 0;
    }
    let n = walk_all(text, rows, walk, bare(rows, t), pointer_at(rows, t));
    let count = first_hits(text, rows, walk, n, names, hits);
    keep_methods(rows, walk, hits, names, count)
}

// The numbers of the line `sel` of a name of the set: member, flag, places.
pub fn selection(
    rows: &[u32],
    walk: &[EmbeddedType],
    hits: &[FirstHit],
    k: u32,
    out: &mut [u32],
) -> usize
    requires { Room hits.now k × (level_of walk.now (hit_row hits.now k) < max_places) × (max_places + 2 ≤ length out.old) }
    ensures { (take result out.new ≡ sel_at rows.now walk.now hits.now k) × (result ≤ max_places + 2) }
{
    let h = hits[k as usize];
    let flag = flag_at(rows, walk, h.row);
    out[0] = k;
    out[1] = u32::from(flag);
    let count = write_places(walk, &mut out[2..], h.row, h.place);
    count + 2
}
