// S: the selection of a name in a type, as goscript's lookup.rs has it. What levels::search does not see is settled here: the blank name, pointers to
// interfaces, and named pointer types. N is in missing.rt.
#![tactic(auto)]

pub mod missing;

ghost use Rattle.std.specs.Prelude.{◌≡◌, true, cond, ◌&&◌, ◌<◌};
ghost use Rattle.objects.specs.Table.{has_package};
ghost use Rattle.objects.specs.Rows.{type_count, package_meant, table_of};
ghost use Rattle.objects.specs.Types.{pointer_read, bare_read, iface_read};
ghost use Rattle.text.specs.Bytes.{is_blank};
ghost use Rattle.rules.specs.Library.{Library};
ghost use Rattle.rules.specs.Ways.{notfound, searched, select};
ghost use Rattle.selection.specs.Results.{name_meant, Selects};
ghost use Rattle.levels.specs.Hits.{Scratch};
ghost use Rattle.lookup.specs.Answers.{without_method};

use levels::Start;
use levels::search::search;
use multiples::EmbeddedType;
use objects::TypeKey;
use objects::rows::{bare, iface_under, named_pointer, pointer_at, under};
use selection::{Entity, LookupResult, Name, Selection};
use text::compare::{same, span};

// ---- what is not searched

fn blank_name(text: &[u8], rows: &[u32], names: &[u8], q: Name) -> bool
    ensures { result ≡ is_blank (name_meant text.now rows.now names.now q).name }
{
    same(span(names, q.at as usize, q.len as usize), b"_")
}

// "a pointer to any type with an interface under it"
fn pointer_to_interface(rows: &[u32], t: TypeKey) -> bool
    ensures { result ≡ pointer_read rows.now t && iface_read rows.now (bare_read rows.now t) }
{
    pointer_at(rows, t) && iface_under(rows, bare(rows, t))
}

// "an `entry` that is a method becomes `notfound`"
fn without_method(s: Selection) -> Selection
    ensures { result ≡ without_method s }
{
    match s.result {
        LookupResult::Entry(entity, _) => match entity {
            Entity::Method(_) => Selection::NOT_FOUND,
            Entity::Field(_) => s,
        },
        _ => s,
    }
}

// ---- selection

// Of a type that is no named pointer type.
pub fn lookup_field_or_method_impl(
    text: &[u8],
    rows: &[u32],
    walk: &mut [EmbeddedType],
    places: &mut [u32],
    names: &[u8],
    q: Name,
    t: TypeKey,
    a: bool,
) -> Selection
    requires library { Library text.now rows.now }
    requires t_bound { (t.0 < type_count rows.now) × (has_package (table_of text.now rows.now) (package_meant q.pkg) ≡ true) }
    requires scratch { Scratch rows.now walk.old places.old }
    ensures { Selects text.now rows.now result places.new (cond (is_blank (name_meant text.now rows.now names.now q).name) notfound (searched (table_of text.now rows.now) (name_meant text.now rows.now names.now q) t a)) }
{
    if blank_name(text, rows, names, q) || pointer_to_interface(rows, t) {
        return Selection::NOT_FOUND;
    }
    let u = bare(rows, t);
    let f = pointer_at(rows, t);
    let s = Start {
        typ: u,
        flag: f,
        addressable: a,
    };
    search(text, rows, walk, places, names, q, s)
}

// S. "A t that is itself a named type whose u is a pointer is searched as that pointer."
pub fn lookup_field_or_method(
    text: &[u8],
    rows: &[u32],
    walk: &mut [EmbeddedType],
    places: &mut [u32],
    names: &[u8],
    q: Name,
    t: TypeKey,
    a: bool,
) -> Selection
    requires library { Library text.now rows.now }
    requires t_bound { (t.0 < type_count rows.now) × (has_package (table_of text.now rows.now) (package_meant q.pkg) ≡ true) }
    requires scratch { Scratch rows.now walk.old places.old }
    ensures { Selects text.now rows.now result places.new (select (table_of text.now rows.now) (name_meant text.now rows.now names.now q) t a) }
{
    if named_pointer(rows, t) {
        let u = under(rows, t);
        let s = lookup_field_or_method_impl(text, rows, walk, places, names, q, u, a);
        without_method(s)
    } else {
        lookup_field_or_method_impl(text, rows, walk, places, names, q, t, a)
    }
}
