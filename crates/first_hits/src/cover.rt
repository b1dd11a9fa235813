// The fields of the structs under the rows' types, once all methods are met: a field hides the methods of its name that are not less deep.
ghost use Rattle.std.specs.Prelude.{◌≡◌, List, [], ◌∷◌, ◌++◌, ◌+◌, ◌<◌, ◌≤◌, take};
ghost use Rattle.objects.specs.Rows.{member_count_of, type_count};
ghost use Rattle.rules.specs.Library.{Library};
ghost use Rattle.levels.specs.declared.Found.{Found};
ghost use Rattle.walk_rows.specs.State.{Walked};
ghost use Rattle.first_hits.specs.Hits.{Held, Settles, Covered, Room, covered_if, stretch_met, methods_met, fields_met};

use crate::gather::{level_at, meet_methods, parts};
use crate::names::place_of;
use crate::{FirstHit, Stretch};
use levels::Found;
use multiples::EmbeddedType;
use obj::id_of;
use objects::ObjKey;
use objects::kinds::STRUCT;

// The name under key k is that of a field at a row: it is hidden if its method is not less deep.
fn hide(walk: &[EmbeddedType], hits: &mut [FirstHit], k: u32, row: u32)
    requires { Room hits.old k }
    ensures { hits.new ≡ covered_if walk.now row k hits.old }
{
    let first = hits[k as usize].row;
    if level_at(walk, row) <= level_at(walk, first) {
        hits[k as usize].hidden = 1;
    }
}

// A field of a row's type.
fn cover(
    text: &[u8],
    rows: &[u32],
    walk: &[EmbeddedType],
    names: &[u32],
    n: usize,
    hits: &mut [FirstHit],
    w: Found,
)
    requires library { Library text.now rows.now }
    requires held { Held text.now rows.now names.now n hits.old × (w.member.0 < member_count_of rows.now) }
    ensures held_2 { Held text.now rows.now names.now n hits.new }
    ensures covered { (M F : List Found) → Covered text.now rows.now walk.now M F (take n names.now) hits.old → Covered text.now rows.now walk.now M (F ++ (w ∷ [])) (take n names.now) hits.new }
{
    let id = id_of(text, rows, w.member);
    if let Ok(i) = place_of(text, rows, names, n, id) {
        hide(walk, hits, names[i], w.row);
    }
}

// The fields of a stretch. A loop beside that of `meet_stretch`: one over a closure would ask for a law of what each call leaves, and be no plainer.
fn cover_stretch(
    text: &[u8],
    rows: &[u32],
    walk: &[EmbeddedType],
    names: &[u32],
    n: usize,
    hits: &mut [FirstHit],
    s: Stretch,
)
    requires library { Library text.now rows.now }
    requires held { Held text.now rows.now names.now n hits.old × (s.first + s.total ≤ member_count_of rows.now) }
    ensures held_2 { Held text.now rows.now names.now n hits.new }
    ensures covered { (M F : List Found) → Covered text.now rows.now walk.now M F (take n names.now) hits.old → Covered text.now rows.now walk.now M (F ++ stretch_met s.row s.first s.total) (take n names.now) hits.new }
{
    for place in 0..s.total {
        let w = Found {
            row: s.row,
            place,
            member: ObjKey(s.first + place),
        };
        cover(text, rows, walk, names, n, hits, w);
    }
}

// The fields of the first n rows; the first `count` names are those of all methods.
fn cover_methods(
    text: &[u8],
    rows: &[u32],
    walk: &[EmbeddedType],
    n: usize,
    names: &[u32],
    count: usize,
    hits: &mut [FirstHit],
)
    requires library { Library text.now rows.now }
    requires walked { Walked (type_count rows.now) walk.now n × Held text.now rows.now names.now count hits.old × Settles text.now rows.now walk.now (methods_met rows.now walk.now n) (take count names.now) hits.old }
    ensures held { Held text.now rows.now names.now count hits.new }
    ensures covered { Covered text.now rows.now walk.now (methods_met rows.now walk.now n) (fields_met rows.now walk.now n) (take count names.now) hits.new }
{
    if count == 0 {
        return;
    }
    for i in 0..n as u32 {
        let fields = parts(rows, walk, i, STRUCT);
        cover_stretch(text, rows, walk, names, count, hits, fields);
    }
}

// The names of the methods that the types of the first n rows have, and which of them are hidden. Answers how many they are.
pub fn first_hits(
    text: &[u8],
    rows: &[u32],
    walk: &[EmbeddedType],
    n: usize,
    names: &mut [u32],
    hits: &mut [FirstHit],
) -> usize
    requires library { Library text.now rows.now }
    requires walked { Walked (type_count rows.now) walk.now n × Held text.now rows.now names.old 0 hits.old }
    ensures held { Held text.now rows.now names.new result hits.new }
    ensures covered { Covered text.now rows.now walk.now (methods_met rows.now walk.now n) (fields_met rows.now walk.now n) (take result names.new) hits.new }
{
    let count = meet_methods(text, rows, walk, n, names, hits);
    cover_methods(text, rows, walk, n, names, count, hits);
    count
}
