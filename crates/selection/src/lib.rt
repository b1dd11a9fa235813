// What a selection gives, as goscript's lookup.rs and selection.rs have it, and the members that are a type's own.
#![tactic(auto)]

ghost use Rattle.std.specs.Prelude.{◌≡◌, true, ◌+◌, ◌<◌, ◌≤◌, length, take, drop, MatchOption};
ghost use Rattle.objects.specs.Table.{has_package, members_of, kind_at};
ghost use Rattle.objects.specs.Rows.{type_count, member_count_of, signs_at, bytes_at, package_meant, table_of};
ghost use Rattle.objects.specs.Types.{number_read};
ghost use Rattle.text.specs.Hash.{hash_from};
ghost use Rattle.rules.specs.Library.{Library};
ghost use Rattle.rules.specs.Ways.{matching};
ghost use Rattle.selection.specs.Results.{name_meant, first, own_meant};
ghost use Rattle.selection.specs.Finds.{first_from, first_plain, Searched, SignsAre, FoundAt};

use obj::same_id;
use objects::kinds::{IFACE, STRUCT};
use objects::rows::{first_member, kind_number, member_total, named_at, signed, signs_at, under};
use objects::{ObjKey, PackageKey, TypeKey};
use text::compare::span;
use text::hash::hash;

// A name that is asked for from a package: its place and length in the text that it stands in, and the package.
#[derive(Clone, Copy)]
pub struct Name {
    pub at: u32,
    pub len: u32,
    pub pkg: Option<PackageKey>,
}

// "the selection enum holds a method-or-field enum"
#[derive(Clone, Copy)]
pub enum Entity {
    Method(ObjKey),
    Field(ObjKey),
}

// An entry has its flag: whether a pointer was removed before the last place.
#[derive(Clone, Copy)]
pub enum LookupResult {
    Entry(Entity, bool),
    Ambiguous,
    BadMethodReceiver,
    NotFound,
}

// The result, and how many places a way has: those of the first stand in front of a lent row, those of the second, which has as many, MAX_PLACES further on.
#[derive(Clone, Copy)]
pub struct Selection {
    pub result: LookupResult,
    pub count: usize,
}

impl Selection {
    // No member has the name.
    pub const NOT_FOUND: Selection = Selection {
        result: LookupResult::NotFound,
        count: 0,
    };
}

// A member of a type itself, at its place in the list that it stands in.
#[derive(Clone, Copy)]
pub struct Own {
    pub place: u32,
    pub member: ObjKey,
}

// Why a type lacks what N asks for: the first method that is not met, and whether a method is there with another type.
#[derive(Clone, Copy)]
pub struct Missing {
    pub method: ObjKey,
    pub other_type: bool,
}

// ---- the members that are a type's own

// So many members are compared about as soon as the sign of a name is made, counted in instructions for names of 8 to 16 bytes.
const FEW_MEMBERS: u32 = 2;

// The sign of a name.
fn sign_of(names: &[u8], q: Name) -> u32
    ensures { result ≡ hash_from 0 (bytes_at names.now q.at q.len) }
{
    hash(span(names, q.at as usize, q.len as usize)) as u32
}

// The signs of members.
fn signs_of(rows: &[u32], from: u32, count: u32) -> &[u32]
    requires { signs_at rows.now + from + count ≤ length rows.now }
    ensures { result.now ≡ take count (drop (signs_at rows.now + from) rows.now) }
{
    let at = signs_at(rows) + from as usize;
    let end = at + count as usize;
    &rows[at..end]
}

// The place of the first of `count` members from number `from` on that has the name, or count. Where their signs and that of the name are given, a member is
// compared only if its sign is the name's.
fn find(
    text: &[u8],
    rows: &[u32],
    from: u32,
    count: u32,
    names: &[u8],
    q: Name,
    signs: Option<(&[u32], u32)>,
) -> u32
    requires searched { Searched text.now rows.now from count q }
    requires signs { MatchOption signs (Unit {0}) (λ s. SignsAre text.now rows.now from count names.now q s.0.now s.1) }
    ensures { FoundAt text.now rows.now from count names.now q result }
{
    for i in 0..count {
        if let Some((all, sign)) = signs {
            if all[i as usize] != sign {
                continue;
            }
        }
        if same_id(text, rows, ObjKey(from + i), names, q.at, q.len, q.pkg) {
            return i;
        }
    }
    count
}

// By signs where there are some, unless the members are too few to pay for the sign of the name.
fn place(text: &[u8], rows: &[u32], from: u32, count: u32, names: &[u8], q: Name) -> u32
    requires { Library text.now rows.now × Searched text.now rows.now from count q × (from + count ≤ member_count_of rows.now) }
    ensures { FoundAt text.now rows.now from count names.now q result }
{
    if FEW_MEMBERS < count && signed(rows) != 0 {
        let signs = signs_of(rows, from, count);
        let sign = sign_of(names, q);
        return find(text, rows, from, count, names, q, Some((signs, sign)));
    }
    find(text, rows, from, count, names, q, None)
}

// The first of the members under the T line of t, which may have some.
fn listed(text: &[u8], rows: &[u32], t: TypeKey, names: &[u8], q: Name) -> Option<Own>
    requires library { Library text.now rows.now }
    requires t_bound { (t.0 < type_count rows.now) × (has_package (table_of text.now rows.now) (package_meant q.pkg) ≡ true) × (8 ≤ number_read rows.now t) }
    ensures { own_meant text.now rows.now result ≡ first_from (table_of text.now rows.now) (name_meant text.now rows.now names.now q) 0 (members_of (kind_at (table_of text.now rows.now) t)) }
{
    let from = first_member(rows, t);
    let count = member_total(rows, t);
    let i = place(text, rows, from, count, names, q);
    if i < count {
        Some(Own {
            place: i,
            member: ObjKey(from + i),
        })
    } else {
        None
    }
}

// The first of the fields of a struct or of the methods of an interface.
fn plain_member(text: &[u8], rows: &[u32], u: TypeKey, names: &[u8], q: Name) -> Option<Own>
    requires library { Library text.now rows.now }
    requires u_bound { (u.0 < type_count rows.now) × (has_package (table_of text.now rows.now) (package_meant q.pkg) ≡ true) }
    ensures { own_meant text.now rows.now result ≡ first_plain (table_of text.now rows.now) (name_meant text.now rows.now names.now q) u }
{
    let kind = kind_number(rows, u);
    if kind == STRUCT || kind == IFACE {
        listed(text, rows, u, names, q)
    } else {
        None
    }
}

// The member of t itself that has the name.
pub fn own_member(text: &[u8], rows: &[u32], t: TypeKey, names: &[u8], q: Name) -> Option<Own>
    requires library { Library text.now rows.now }
    requires t_bound { (t.0 < type_count rows.now) × (has_package (table_of text.now rows.now) (package_meant q.pkg) ≡ true) }
    ensures { own_meant text.now rows.now result ≡ first (matching (table_of text.now rows.now) (name_meant text.now rows.now names.now q) t) }
{
    if named_at(rows, t) {
        let own = listed(text, rows, t, names, q);
        if own.is_some() {
            return own;
        }
    }
    let u = under(rows, t);
    plain_member(text, rows, u, names, q)
}
