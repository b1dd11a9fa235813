// The methods, row by row: those of a named type, and those of the interface under it.
ghost use Rattle.std.specs.Prelude.{◌≡◌, List, [], ◌∷◌, ◌++◌, ◌+◌, ◌<◌, ◌≤◌, take};
ghost use Rattle.objects.specs.Rows.{member_count_of, type_count};
ghost use Rattle.rules.specs.Library.{Library};
ghost use Rattle.levels.specs.declared.Found.{Found};
ghost use Rattle.walk_rows.specs.Records.{row_of, level_of};
ghost use Rattle.walk_rows.specs.State.{Walked};
ghost use Rattle.first_hits.specs.Hits.{Held, Settles, Room, Within, marked_if, iface_kind, stretch_met, declared_met, parts_met, methods_met};

use crate::names::{place_of, put_name};
use crate::{FirstHit, Stretch};
use levels::Found;
use multiples::EmbeddedType;
use obj::id_of;
use objects::ObjKey;
use objects::kinds::IFACE;
use objects::rows::{first_member, kind_number, member_total, named_at, under};
use walk_rows::records::record_at;

// ---- one method

pub fn level_at(walk: &[EmbeddedType], i: u32) -> u32
    ensures { result ≡ level_of walk.now i }
{
    record_at(walk, i as usize).level
}

// The name under key k is met again, at a row: it is hidden if that is on the level of the first.
fn meet_again(walk: &[EmbeddedType], hits: &mut [FirstHit], k: u32, row: u32)
    requires { Room hits.old k }
    ensures { hits.new ≡ marked_if walk.now row k hits.old }
{
    let first = hits[k as usize].row;
    if level_at(walk, first) == level_at(walk, row) {
        hits[k as usize].hidden = 1;
    }
}

// A method of a row's type: its name is new, or has been met. Answers how many names there are now.
fn meet(
    text: &[u8],
    rows: &[u32],
    walk: &[EmbeddedType],
    names: &mut [u32],
    n: usize,
    hits: &mut [FirstHit],
    w: Found,
) -> usize
    requires library { Library text.now rows.now }
    requires held { Held text.now rows.now names.old n hits.old × (w.member.0 < member_count_of rows.now) }
    ensures held_2 { Held text.now rows.now names.new result hits.new }
    ensures settles { (P : List Found) → Settles text.now rows.now walk.now P (take n names.old) hits.old → Settles text.now rows.now walk.now (P ++ (w ∷ [])) (take result names.new) hits.new }
{
    let m = w.member;
    let id = id_of(text, rows, m);
    match place_of(text, rows, names, n, id) {
        Ok(i) => {
            meet_again(walk, hits, names[i], w.row);
            n
        }
        Err(i) => {
            put_name(names, n, i, m.0);
            hits[m.0 as usize] = FirstHit {
                row: w.row,
                place: w.place,
                hidden: 0,
            };
            n + 1
        }
    }
}

// ---- the members of a row's type

// No members.
const EMPTY: Stretch = Stretch {
    row: 0,
    first: 0,
    total: 0,
};

// The methods of row i's type, if it is named.
fn declared(rows: &[u32], walk: &[EmbeddedType], i: u32) -> Stretch
    ensures met { stretch_met result.row result.first result.total ≡ declared_met rows.now walk.now i }
    ensures within { Within rows.now walk.now i result }
{
    let u = record_at(walk, i as usize).typ;
    if !named_at(rows, u) {
        return EMPTY;
    }
    Stretch {
        row: i,
        first: first_member(rows, u),
        total: member_total(rows, u),
    }
}

// The members of what is under row i's type, if that is of this kind: a struct or an interface.
pub fn parts(rows: &[u32], walk: &[EmbeddedType], i: u32, kind: u32) -> Stretch
    ensures met { stretch_met result.row result.first result.total ≡ parts_met rows.now walk.now kind i }
    ensures within { 8 ≤ kind → Within rows.now walk.now i result }
{
    let u = under(rows, record_at(walk, i as usize).typ);
    if kind_number(rows, u) != kind {
        return EMPTY;
    }
    Stretch {
        row: i,
        first: first_member(rows, u),
        total: member_total(rows, u),
    }
}

// The methods of a stretch.
fn meet_stretch(
    text: &[u8],
    rows: &[u32],
    walk: &[EmbeddedType],
    names: &mut [u32],
    n: usize,
    hits: &mut [FirstHit],
    s: Stretch,
) -> usize
    requires library { Library text.now rows.now }
    requires held { Held text.now rows.now names.old n hits.old × (s.first + s.total ≤ member_count_of rows.now) }
    ensures held_2 { Held text.now rows.now names.new result hits.new }
    ensures settles { (P : List Found) → Settles text.now rows.now walk.now P (take n names.old) hits.old → Settles text.now rows.now walk.now (P ++ stretch_met s.row s.first s.total) (take result names.new) hits.new }
{
    let mut end = n;
    for place in 0..s.total {
        let w = Found {
            row: s.row,
            place,
            member: ObjKey(s.first + place),
        };
        end = meet(text, rows, walk, names, end, hits, w);
    }
    end
}

// The methods of row i's type, if it is named. A row without methods, as most are, is passed over before a call, here and below.
fn meet_declared(
    text: &[u8],
    rows: &[u32],
    walk: &[EmbeddedType],
    names: &mut [u32],
    n: usize,
    hits: &mut [FirstHit],
    i: u32,
) -> usize
    requires library { Library text.now rows.now }
    requires held { Held text.now rows.now names.old n hits.old × ((row_of walk.now i).type.0 < type_count rows.now) }
    ensures held_2 { Held text.now rows.now names.new result hits.new }
    ensures settles { (P : List Found) → Settles text.now rows.now walk.now P (take n names.old) hits.old → Settles text.now rows.now walk.now (P ++ declared_met rows.now walk.now i) (take result names.new) hits.new }
{
    let s = declared(rows, walk, i);
    if s.total == 0 {
        return n;
    }
    meet_stretch(text, rows, walk, names, n, hits, s)
}

// The methods of the interface under it.
fn meet_listed(
    text: &[u8],
    rows: &[u32],
    walk: &[EmbeddedType],
    names: &mut [u32],
    n: usize,
    hits: &mut [FirstHit],
    i: u32,
) -> usize
    requires library { Library text.now rows.now }
    requires held { Held text.now rows.now names.old n hits.old × ((row_of walk.now i).type.0 < type_count rows.now) }
    ensures held_2 { Held text.now rows.now names.new result hits.new }
    ensures settles { (P : List Found) → Settles text.now rows.now walk.now P (take n names.old) hits.old → Settles text.now rows.now walk.now (P ++ parts_met rows.now walk.now iface_kind i) (take result names.new) hits.new }
{
    let s = parts(rows, walk, i, IFACE);
    if s.total == 0 {
        return n;
    }
    meet_stretch(text, rows, walk, names, n, hits, s)
}

// ---- all rows

// The names of the methods that the types of the first n rows have. Answers how many they are.
pub fn meet_methods(
    text: &[u8],
    rows: &[u32],
    walk: &[EmbeddedType],
    n: usize,
    names: &mut [u32],
    hits: &mut [FirstHit],
) -> usize
    requires library { Library text.now rows.now }
    requires walked { Walked (type_count rows.now) walk.now n × Held text.now rows.now names.old 0 hits.old }
    ensures held { Held text.now rows.now names.new result hits.new }
    ensures settles { Settles text.now rows.now walk.now (methods_met rows.now walk.now n) (take result names.new) hits.new }
{
    let mut count = 0;
    for i in 0..n as u32 {
        count = meet_declared(text, rows, walk, names, count, hits, i);
        count = meet_listed(text, rows, walk, names, count, hits, i);
    }
    count
}
