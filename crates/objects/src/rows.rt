// The readers of a loaded table: each gives what the words of its rows say (specs/Rows.antt, specs/Types.antt). A word that is not there reads as 0, so
// that every reader is total.
ghost use Rattle.std.specs.Prelude.{◌≡◌, ◌≤◌, length};
ghost use Rattle.objects.specs.Bounds.{types_end, members_at};
ghost use Rattle.objects.specs.Rows.{word_at, package_count, type_count, member_count_of, element_count, type_word, member_word, package_word, element_at, signed_of, signs_at, dir_at};
ghost use Rattle.objects.specs.Types.{type_read, number_read, pointer_read, named_read, bare_read, under_read, iface_read, named_pointer_read, first_read, total_read, member_type_read, package_read, embedded_read, method_read, ptr_read};

use crate::bounds::{PACKAGE_WORDS, PACKAGES_AT, ROW_WORDS, SIGNED_AT, TYPES_AT, TYPES_END};
use crate::kinds::{IFACE, NAMED, POINTER};
use crate::{Dir, ObjKey, PackageKey, Type, TypeKey};

// ---- words

pub fn word(rows: &[u32], at: usize) -> u32
    ensures { result ≡ word_at rows.now at }
{
    if at < rows.len() { rows[at] } else { 0 }
}

pub fn package_count(rows: &[u32]) -> u32
    ensures { result ≡ package_count rows.now }
{
    word(rows, 0)
}

pub fn type_count(rows: &[u32]) -> u32
    ensures { result ≡ type_count rows.now }
{
    word(rows, 1)
}

pub fn member_count(rows: &[u32]) -> u32
    ensures { result ≡ member_count_of rows.now }
{
    word(rows, 2)
}

pub fn element_count(rows: &[u32]) -> u32
    ensures { result ≡ element_count rows.now }
{
    word(rows, 3)
}

// Where the members begin: the types have half of the words behind the packages, and no more than they may need.
pub fn members_at(rows: &[u32]) -> usize
    ensures value { result ≡ members_at (length rows.now) }
    ensures upper_bound { result ≤ types_end }
{
    let half = (rows.len() + TYPES_AT) / 2;
    half.min(TYPES_END)
}

// Word j of a row.
pub fn type_word(rows: &[u32], t: TypeKey, j: u32) -> u32
    ensures { result ≡ type_word rows.now t j }
{
    word(rows, TYPES_AT + ROW_WORDS * (t.0 as usize) + j as usize)
}

pub fn member_word(rows: &[u32], m: ObjKey, j: u32) -> u32
    ensures { result ≡ member_word rows.now m j }
{
    word(
        rows,
        members_at(rows) + ROW_WORDS * (m.0 as usize) + j as usize,
    )
}

pub fn package_word(rows: &[u32], p: PackageKey, j: u32) -> u32
    ensures { result ≡ package_word rows.now p j }
{
    word(
        rows,
        PACKAGES_AT + PACKAGE_WORDS * (p.0 as usize) + j as usize,
    )
}

// Elements of tuples stand from the last word downwards.
pub fn element(rows: &[u32], i: u32) -> TypeKey
    ensures { result ≡ element_at rows.now i }
{
    let n = rows.len();
    let back = i as usize;
    if back < n {
        let at = n - 1 - back;
        TypeKey(rows[at])
    } else {
        TypeKey(word(rows, 0))
    }
}

// ---- signs of members

// Not 0 if each member has a sign.
pub fn signed(rows: &[u32]) -> u32
    ensures { result ≡ signed_of rows.now }
{
    word(rows, SIGNED_AT)
}

// Where they stand: behind the members.
pub fn signs_at(rows: &[u32]) -> usize
    ensures { result ≡ signs_at rows.now }
{
    members_at(rows) + ROW_WORDS * (member_count(rows) as usize)
}

// ---- a whole type

// "0 both ways, 1 send only, 2 receive only"
pub fn direction(n: u32) -> Dir
    ensures { result ≡ dir_at n }
{
    match n {
        0 => Dir::Both,
        1 => Dir::Send,
        _ => Dir::Receive,
    }
}

pub fn type_of(rows: &[u32], t: TypeKey) -> Type
    ensures { result ≡ type_read rows.now t }
{
    let a = type_word(rows, t, 1);
    let b = type_word(rows, t, 2);
    let first = type_word(rows, t, 4);
    let count = type_word(rows, t, 5);
    match type_word(rows, t, 0) {
        0 => Type::Basic(a),
        1 => Type::Array(a, TypeKey(b)),
        2 => Type::Slice(TypeKey(a)),
        3 => Type::Pointer(TypeKey(a)),
        4 => Type::Map(TypeKey(a), TypeKey(b)),
        5 => Type::Chan(direction(a), TypeKey(b)),
        6 => Type::Tuple(first, count),
        7 => Type::Func(a == 1, TypeKey(b), TypeKey(type_word(rows, t, 3))),
        8 => Type::Struct(first, count),
        9 => Type::Iface(first, count),
        _ => Type::Named(TypeKey(a), first, count),
    }
}

// ---- parts of a type

// Its place among the eleven kinds.
pub fn kind_number(rows: &[u32], t: TypeKey) -> u32
    ensures { result ≡ number_read rows.now t }
{
    type_word(rows, t, 0).min(NAMED)
}

pub fn pointer_at(rows: &[u32], t: TypeKey) -> bool
    ensures { result ≡ pointer_read rows.now t }
{
    kind_number(rows, t) == POINTER
}

pub fn named_at(rows: &[u32], t: TypeKey) -> bool
    ensures { result ≡ named_read rows.now t }
{
    kind_number(rows, t) == NAMED
}

// One pointer removed.
pub fn bare(rows: &[u32], t: TypeKey) -> TypeKey
    ensures { result ≡ bare_read rows.now t }
{
    if pointer_at(rows, t) {
        TypeKey(type_word(rows, t, 1))
    } else {
        t
    }
}

// "A named type stands also for its u."
pub fn under(rows: &[u32], t: TypeKey) -> TypeKey
    ensures { result ≡ under_read rows.now t }
{
    if named_at(rows, t) {
        TypeKey(type_word(rows, t, 1))
    } else {
        t
    }
}

// "with an interface under it"
pub fn iface_under(rows: &[u32], t: TypeKey) -> bool
    ensures { result ≡ iface_read rows.now t }
{
    kind_number(rows, under(rows, t)) == IFACE
}

// "a named type whose u is a pointer"
pub fn named_pointer(rows: &[u32], t: TypeKey) -> bool
    ensures { result ≡ named_pointer_read rows.now t }
{
    named_at(rows, t) && pointer_at(rows, under(rows, t))
}

pub fn first_member(rows: &[u32], t: TypeKey) -> u32
    ensures { result ≡ first_read rows.now t }
{
    type_word(rows, t, 4)
}

pub fn member_total(rows: &[u32], t: TypeKey) -> u32
    ensures { result ≡ total_read rows.now t }
{
    type_word(rows, t, 5)
}

// ---- parts of a member

pub fn member_type(rows: &[u32], m: ObjKey) -> TypeKey
    ensures { result ≡ member_type_read rows.now m }
{
    TypeKey(member_word(rows, m, 3))
}

pub fn member_package(rows: &[u32], m: ObjKey) -> Option<PackageKey>
    ensures { result ≡ package_read rows.now m }
{
    let w = member_word(rows, m, 2);
    if w == 0 {
        None
    } else {
        Some(PackageKey(w - 1))
    }
}

pub fn is_embedded(rows: &[u32], m: ObjKey) -> bool
    ensures { result ≡ embedded_read rows.now m }
{
    member_word(rows, m, 4) == 1
}

pub fn is_method(rows: &[u32], m: ObjKey) -> bool
    ensures { result ≡ method_read rows.now m }
{
    1 < member_word(rows, m, 4)
}

// with pointer receiver
pub fn has_ptr(rows: &[u32], m: ObjKey) -> bool
    ensures { result ≡ ptr_read rows.now m }
{
    2 < member_word(rows, m, 4)
}
