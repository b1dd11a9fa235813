// What a line may refer to, in the order of document 01. A type number that the table lacks counts as `T basic 0`, so that no test needs its references
// to be there.
ghost use Rattle.std.specs.Prelude.{◌≡◌, not, ◌||◌, ◌<◌};
ghost use Rattle.objects.specs.Table.{kind_number, kind_at, under, bare, is_pointer, is_iface};
ghost use Rattle.objects.specs.Rows.{type_count};
ghost use Rattle.objects.specs.Types.{number_read};
ghost use Rattle.objects.specs.Laid.{Laid};
ghost use Rattle.rules.specs.Checks.{may_refer, smaller_tuple, ends_in_slice, may_name, type_allowed, may_embed, may_have, member_allowed};
ghost use Rattle.references.specs.Lines.{Says, SaysOf};

use crate::refs::refs_pass;
use crate::tests::Forbidden;
use objects::kinds::{FUNC, IFACE, NAMED, POINTER, SLICE, TUPLE};
use objects::rows::{
    element, first_member, has_ptr, is_embedded, is_method, kind_number, member_total, member_type,
    type_count, type_word,
};
use objects::{ObjKey, TypeKey};

// ---- readers that know where the table ends

// The number of a kind.
fn kind_in(rows: &[u32], t: TypeKey) -> u32
    ensures { Says rows.now result (λ T. kind_number (kind_at T t)) }
{
    if t.0 < type_count(rows) {
        kind_number(rows, t)
    } else {
        0
    }
}

// "A named type stands also for its u."
fn under_in(rows: &[u32], t: TypeKey) -> TypeKey
    ensures { Says rows.now result (λ T. under T t) }
{
    if kind_in(rows, t) == NAMED {
        TypeKey(type_word(rows, t, 1))
    } else {
        t
    }
}

// One pointer removed.
fn bare_in(rows: &[u32], t: TypeKey) -> TypeKey
    ensures { Says rows.now result (λ T. bare T t) }
{
    if kind_in(rows, t) == POINTER {
        TypeKey(type_word(rows, t, 1))
    } else {
        t
    }
}

// ---- a T line

// "No line but func refers to a tuple"; "refer to a smaller number than their type's, unless the target is named or iface"
pub fn may_refer(rows: &[u32], t: TypeKey, e: TypeKey) -> bool
    ensures { Says rows.now result (λ T. may_refer T t e) }
{
    match kind_in(rows, e) {
        TUPLE => false,
        IFACE | NAMED => true,
        _ => e.0 < t.0,
    }
}

// "func refers to two smaller-numbered tuples"
fn smaller_tuple(rows: &[u32], t: TypeKey, e: TypeKey) -> bool
    ensures { Says rows.now result (λ T. smaller_tuple T t e) }
{
    kind_in(rows, e) == TUPLE && e.0 < t.0
}

// "the first ends in a slice", of a tuple p
fn ends_in_slice(rows: &[u32], p: TypeKey) -> bool
    requires { Laid rows.now × (p.0 < type_count rows.now) × (number_read rows.now p ≡ 6) }
    ensures { Says rows.now result (λ T. ends_in_slice T p) }
{
    let first = first_member(rows, p);
    let n = member_total(rows, p);
    n != 0 && kind_in(rows, element(rows, first + (n - 1))) == SLICE
}

// The T line of a func.
fn func_allowed(rows: &[u32], t: TypeKey) -> bool
    requires { Laid rows.now × (t.0 < type_count rows.now) × (number_read rows.now t ≡ 7) }
    ensures { Says rows.now result (λ T. type_allowed T t (kind_at T t)) }
{
    let p = TypeKey(type_word(rows, t, 2));
    let r = TypeKey(type_word(rows, t, 3));
    let variadic = type_word(rows, t, 1) == 1;
    smaller_tuple(rows, t, p) && smaller_tuple(rows, t, r) && (!variadic || ends_in_slice(rows, p))
}

// "A named type's u is neither named nor tuple"
fn may_name(rows: &[u32], u: TypeKey) -> bool
    ensures { Says rows.now result (λ T. may_name T u) }
{
    !matches!(kind_in(rows, u), TUPLE | NAMED)
}

// The T line of t: a func and a named type have rules of their own.
pub fn type_allowed(rows: &[u32], t: TypeKey) -> bool
    requires { Laid rows.now × (t.0 < type_count rows.now) }
    ensures { Says rows.now result (λ T. type_allowed T t (kind_at T t)) }
{
    match kind_number(rows, t) {
        FUNC => func_allowed(rows, t),
        NAMED => may_name(rows, TypeKey(type_word(rows, t, 1))),
        _ => refs_pass::<Forbidden>(rows, t),
    }
}

// ---- an F or M line

// Neither a pointer nor an interface.
fn concrete(rows: &[u32], u: TypeKey) -> bool
    ensures { Says rows.now result (λ T. not (is_pointer (kind_at T u) || is_iface (kind_at T u))) }
{
    !matches!(kind_in(rows, u), POINTER | IFACE)
}

// "An embedded field's type is neither a named pointer type nor a pointer to a pointer, an interface, or a name of either."
fn may_embed(rows: &[u32], e: TypeKey) -> bool
    ensures { Says rows.now result (λ T. may_embed T e) }
{
    match kind_in(rows, e) {
        POINTER => concrete(rows, under_in(rows, bare_in(rows, e))),
        NAMED => kind_in(rows, under_in(rows, e)) != POINTER,
        _ => true,
    }
}

// A named type "with methods .. is neither pointer nor iface (refused at its first M line)"; "an interface's ptr is 0".
fn may_have(rows: &[u32], t: TypeKey, ptr: bool) -> bool
    requires { (t.0 < type_count rows.now) × (7 < number_read rows.now t) }
    ensures { Says rows.now result (λ T. may_have T (kind_at T t) ptr) }
{
    match kind_number(rows, t) {
        IFACE => !ptr,
        NAMED => concrete(rows, TypeKey(type_word(rows, t, 1))),
        _ => true,
    }
}

// The line of m under t: a method's type is a func; a field's type is referred to as others are.
pub fn member_allowed(rows: &[u32], t: TypeKey, m: ObjKey) -> bool
    requires { (t.0 < type_count rows.now) × (7 < number_read rows.now t) }
    ensures { SaysOf rows.now m result (λ T x. member_allowed T t (kind_at T t) x.type x.entity) }
{
    let e = member_type(rows, m);
    if is_method(rows, m) {
        return kind_in(rows, e) == FUNC && may_have(rows, t, has_ptr(rows, m));
    }
    may_refer(rows, t, e) && (!is_embedded(rows, m) || may_embed(rows, e))
}
