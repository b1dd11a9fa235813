// C: comparability, by recursion with a falling rank.
ghost use Rattle.std.specs.Prelude.{◌≡◌, ◌+◌, ◌<◌, ◌≤◌, length, replicate};
ghost use Rattle.objects.specs.Bounds.{max_types, word_values};
ghost use Rattle.objects.specs.Rows.{type_count, table_of};
ghost use Rattle.objects.specs.Types.{first_read};
ghost use Rattle.rules.specs.Library.{Library};
ghost use Rattle.rules.specs.Comparable.{comparable};
ghost use Rattle.typ.specs.Contents.{may_compare, content_count, content_at, MetComparable, Judged};

use objects::rows::{member_type, type_count, type_of};
use objects::{ObjKey, Type, TypeKey};
use pair_marks::marks::clear;
use type_parts::basic::BasicType;

// Comparable if all is that it contains by value.
#[tactic(auto, unfolding(crate::specs::Contents::may_compare, crate::specs::Contents::may_compare_in))]
pub fn may_compare(rows: &[u32], t: TypeKey) -> bool
    ensures { result ≡ may_compare rows.now t }
{
    let ty = type_of(rows, t);
    match ty {
        Type::Basic(k) => BasicType(k) != BasicType::UNTYPED_NIL,
        Type::Array(..) | Type::Pointer(_) | Type::Chan(..) => true,
        Type::Struct(..) | Type::Iface(..) | Type::Named(..) => true,
        Type::Slice(_) | Type::Map(..) | Type::Tuple(..) | Type::Func(..) => false,
    }
}

// How many types it contains by value.
#[tactic(auto, unfolding(crate::specs::Contents::content_count, crate::specs::Contents::held_in))]
pub fn content_count(rows: &[u32], t: TypeKey) -> u32
    ensures { result ≡ content_count rows.now t }
{
    let ty = type_of(rows, t);
    match ty {
        Type::Array(..) | Type::Named(..) => 1,
        Type::Struct(_, n) => n,
        _ => 0,
    }
}

// The i-th of them.
#[tactic(auto, unfolding(crate::specs::Contents::content_at, crate::specs::Contents::content_in))]
pub fn content_at(rows: &[u32], t: TypeKey, i: u32) -> TypeKey
    requires { first_read rows.now t + i < word_values }
    ensures { result ≡ content_at rows.now t i }
{
    let ty = type_of(rows, t);
    match ty {
        Type::Array(_, e) | Type::Named(e, ..) => e,
        Type::Struct(first, _) => member_type(rows, ObjKey(first + i)),
        _ => TypeKey(0),
    }
}

// t is judged by what it contains by value, whose rank is lower: "no type contains itself by value". A type met before is comparable, since the first
// that is not ends all; so each type is judged once. At most as many levels are nested as there are types (`lower-few`, proofs/Lower.antt).
// docs/ENTRY.md has what stack they take.
fn comparable_impl(text: &[u8], rows: &[u32], met: &mut [u32], t: TypeKey) -> bool
    requires library { Library text.now rows.now }
    requires t_bound { (t.0 < type_count rows.now) × (type_count rows.now ≤ length met.old) }
    requires met_comparable { MetComparable text.now rows.now met.old }
    ensures { Judged text.now rows.now met.new t result }
{
    let at = t.0 as usize;
    if met[at] != 0 {
        return true;
    }
    if !may_compare(rows, t) {
        return false;
    }
    let n = content_count(rows, t);
    for i in 0..n {
        let e = content_at(rows, t, i);
        if !comparable_impl(text, rows, met, e) {
            return false;
        }
    }
    met[at] = 1;
    true
}

// Type t is comparable. Every word lent is cleared.
fn judge(text: &[u8], rows: &[u32], met: &mut [u32], t: TypeKey) -> bool
    requires library { Library text.now rows.now }
    requires t_bound { (t.0 < type_count rows.now) × (type_count rows.now ≤ length met.old) }
    requires met_value { met.old ≡ replicate (length met.old) 0 }
    ensures value { result ≡ comparable (table_of text.now rows.now) t }
    ensures met_unchanged { met.new ≡ met.old }
{
    let r = comparable_impl(text, rows, met, t);
    clear(met);
    r
}

// Type t is comparable. The words lent are 0 before and after; a word for each type of the table is all that is used of them, and cleared.
pub fn comparable(text: &[u8], rows: &[u32], met: &mut [u32], t: TypeKey) -> bool
    requires library { Library text.now rows.now }
    requires t_bound { (t.0 < type_count rows.now) × (max_types ≤ length met.old) }
    requires met_value { met.old ≡ replicate (length met.old) 0 }
    ensures value { result ≡ comparable (table_of text.now rows.now) t }
    ensures met_unchanged { met.new ≡ met.old }
{
    let types = type_count(rows) as usize;
    judge(text, rows, &mut met[0..types], t)
}
