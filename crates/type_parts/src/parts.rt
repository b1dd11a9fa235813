// What a type is made of, read off the rows of a loaded table: the number that belongs to it, its parts by their places, and whether it and another are told
// apart whatever their parts are.
ghost use Rattle.std.specs.Prelude.{◌≡◌, true, ◌⊎◌, ◌+◌, ◌<◌};
ghost use Rattle.objects.specs.Bounds.{word_values};
ghost use Rattle.objects.specs.Rows.{bytes_at, type_word, member_word, type_count, table_of, member_at};
ghost use Rattle.objects.specs.Types.{first_read};
ghost use Rattle.objects.specs.Table.{dir_number, has_package, members_of, kind_at};
ghost use Rattle.text.specs.Bytes.{same_bytes};
ghost use Rattle.rules.specs.Sound.{Ordered};
ghost use Rattle.rules.specs.Identity.{alike_member, alike, mismatch};
ghost use Rattle.rules.specs.Library.{Library};
ghost use Rattle.type_parts.specs.Parts.{own_read, part_count, part_at, tag_length, same_numbers, pair_of, Kin};

use crate::basic::BasicType;
use obj::same_member;
use objects::kinds::{FUNC, IFACE, STRUCT, TUPLE};
use objects::rows::{
    element, first_member, is_embedded, is_method, kind_number, member_total, member_type,
    member_word, type_of, type_word,
};
use objects::{Dir, ObjKey, Type, TypeKey};
use text::compare::same_part;

// ---- a type

// "0 both ways, 1 send only, 2 receive only"
fn dir_number(d: Dir) -> u32
    ensures { result ≡ dir_number d }
{
    d as u32
}

// Struct and iface: a part is a member's type.
fn has_members(kind: u32) -> bool
    ensures { result ≡ true → (kind ≡ 8) ⊎ (kind ≡ 9) }
{
    kind == STRUCT || kind == IFACE
}

// The number that belongs to a type beside its kind, its parts and its members, whatever the kind is.
#[tactic(auto, unfolding(crate::specs::Parts::own_read, crate::specs::Parts::own_in))]
fn own_of(rows: &[u32], t: TypeKey) -> u32
    ensures { result ≡ own_read rows.now t }
{
    let ty = type_of(rows, t);
    match ty {
        Type::Basic(k) => BasicType(k).real_type().0,
        Type::Slice(_) | Type::Pointer(_) | Type::Map(..) => 0,
        Type::Chan(d, _) => dir_number(d),
        Type::Func(v, ..) => u32::from(v),
        Type::Array(n, _) => n,
        Type::Tuple(_, n) | Type::Struct(_, n) | Type::Iface(_, n) => n,
        Type::Named(..) => t.0,
    }
}

// The same. Of struct, iface and tuple it is how many members or elements there are, which is read at once.
pub fn own_number(rows: &[u32], t: TypeKey) -> u32
    ensures { result ≡ own_read rows.now t }
{
    let k = type_word(rows, t, 0);
    if has_members(k) || k == TUPLE {
        return member_total(rows, t);
    }
    own_of(rows, t)
}

// How many types it is made of.
#[tactic(auto, unfolding(crate::specs::Parts::part_count, crate::specs::Parts::count_in))]
pub fn part_count(rows: &[u32], t: TypeKey) -> u32
    ensures { result ≡ part_count rows.now t }
{
    let ty = type_of(rows, t);
    match ty {
        Type::Basic(_) | Type::Named(..) => 0,
        Type::Array(..) | Type::Slice(_) | Type::Pointer(_) | Type::Chan(..) => 1,
        Type::Map(..) | Type::Func(..) => 2,
        Type::Tuple(_, n) | Type::Struct(_, n) | Type::Iface(_, n) => n,
    }
}

// The i-th of them, whatever the kind is.
#[tactic(auto, unfolding(crate::specs::Parts::part_at, crate::specs::Parts::part_in))]
fn part_of(rows: &[u32], t: TypeKey, i: u32) -> TypeKey
    requires { first_read rows.now t + i < word_values }
    ensures { result ≡ part_at rows.now t i }
{
    let ty = type_of(rows, t);
    match ty {
        Type::Basic(_) | Type::Named(..) => TypeKey(0),
        Type::Array(_, e) | Type::Slice(e) | Type::Pointer(e) | Type::Chan(_, e) => e,
        Type::Map(a, b) | Type::Func(_, a, b) => if i == 0 { a } else { b },
        Type::Tuple(first, _) => element(rows, first + i),
        Type::Struct(first, _) | Type::Iface(first, _) => member_type(rows, ObjKey(first + i)),
    }
}

// The i-th of them. The kinds of several parts, of which there are the most parts to read, come first, and only the words are read that one takes.
pub fn part_at(rows: &[u32], t: TypeKey, i: u32) -> TypeKey
    requires { first_read rows.now t + i < word_values }
    ensures { result ≡ part_at rows.now t i }
{
    let k = type_word(rows, t, 0);
    if has_members(k) {
        return member_type(rows, ObjKey(first_member(rows, t) + i));
    }
    if k == TUPLE {
        return element(rows, first_member(rows, t) + i);
    }
    if k != FUNC {
        return part_of(rows, t, i);
    }
    if i == 0 {
        return TypeKey(type_word(rows, t, 2));
    }
    TypeKey(type_word(rows, t, 3))
}

// The i-th of them, for a loop over i: the kind and the first member or element are known.
pub fn part_in(rows: &[u32], t: TypeKey, k: u32, first: u32, i: u32) -> TypeKey
    requires k_value { (k ≡ type_word rows.now t 0) × (first ≡ first_read rows.now t) }
    requires i_bound { first_read rows.now t + i < word_values }
    ensures { result ≡ part_at rows.now t i }
{
    if has_members(k) {
        return member_type(rows, ObjKey(first + i));
    }
    if k == TUPLE {
        return element(rows, first + i);
    }
    part_at(rows, t, i)
}

// ---- members

// A method has no tag.
fn tag_length(rows: &[u32], m: ObjKey) -> u32
    ensures { result ≡ tag_length rows.now m }
{
    if is_method(rows, m) {
        0
    } else {
        member_word(rows, m, 6)
    }
}

// "tags count"
fn same_tag(text: &[u8], rows: &[u32], m: ObjKey, n: ObjKey) -> bool
    ensures { result ≡ same_bytes (bytes_at text.now (member_word rows.now m 5) (tag_length rows.now m)) (bytes_at text.now (member_word rows.now n 5) (tag_length rows.now n)) }
{
    let ma = member_word(rows, m, 5);
    let ml = tag_length(rows, m);
    let na = member_word(rows, n, 5);
    let nl = tag_length(rows, n);
    same_part(text, ma as usize, ml as usize, na as usize, nl as usize)
}

// One identity, both embedded or neither, one tag.
fn alike(text: &[u8], rows: &[u32], m: ObjKey, n: ObjKey) -> bool
    requires { (has_package (table_of text.now rows.now) (member_at text.now rows.now m).pkg ≡ true) × (has_package (table_of text.now rows.now) (member_at text.now rows.now n).pkg ≡ true) × Ordered (table_of text.now rows.now) }
    ensures { result ≡ alike_member (table_of text.now rows.now) (member_at text.now rows.now m) (member_at text.now rows.now n) }
{
    same_member(text, rows, m, n)
        && is_embedded(rows, m) == is_embedded(rows, n)
        && same_tag(text, rows, m, n)
}

// ---- two types

// Types x and y are of one kind and one own number.
pub fn kin(rows: &[u32], x: TypeKey, y: TypeKey) -> bool
    ensures { result ≡ same_numbers rows.now x y }
{
    kind_number(rows, x) == kind_number(rows, y) && own_number(rows, x) == own_number(rows, y)
}

// The members of x and y at the same places are called alike. Their types are not looked at.
fn called_alike(text: &[u8], rows: &[u32], x: TypeKey, y: TypeKey) -> bool
    requires library { Library text.now rows.now }
    requires kin { Kin (table_of text.now rows.now) x y }
    ensures { result ≡ alike (table_of text.now rows.now) (members_of (kind_at (table_of text.now rows.now) x)) (members_of (kind_at (table_of text.now rows.now) y)) }
{
    if kind_number(rows, x) < STRUCT {
        return true;
    }
    let n = part_count(rows, x);
    let first = first_member(rows, x);
    let second = first_member(rows, y);
    for i in 0..n {
        if !alike(text, rows, ObjKey(first + i), ObjKey(second + i)) {
            return false;
        }
    }
    true
}

// Types x and y are told apart whatever their parts are: by kind, by own number or by their members. Two structs are by the count, the embedded marks, the
// names and the tags of their fields.
pub fn mismatch(text: &[u8], rows: &[u32], x: TypeKey, y: TypeKey) -> bool
    requires library { Library text.now rows.now }
    requires x_bound { (x.0 < type_count rows.now) × (y.0 < type_count rows.now) }
    ensures { result ≡ mismatch (table_of text.now rows.now) (pair_of x y) }
{
    !(kin(rows, x, y) && called_alike(text, rows, x, y))
}
