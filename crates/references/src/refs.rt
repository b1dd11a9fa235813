// What a line refers to, each reference put to the test.
ghost use Rattle.std.specs.Prelude.{Bool, ◌&&◌, ◌<◌};
ghost use Rattle.objects.specs.Lists.{every};
ghost use Rattle.objects.specs.declared.TypeKey.{TypeKey};
ghost use Rattle.objects.specs.Table.{Table, kind_at, refs, has_type, has_package};
ghost use Rattle.objects.specs.Rows.{type_count, package_meant};
ghost use Rattle.objects.specs.Laid.{Laid};
ghost use Rattle.references.specs.Lines.{Says, SaysOf, SaysEach};
ghost use Rattle.rules.specs.Checks.{may_refer};

use crate::allowed::may_refer;
use crate::elements::{elements_allowed, elements_within};
use crate::tests::{Forbidden, Lacking};
use objects::rows::{member_package, member_type, package_count, type_count, type_of};
use objects::{ObjKey, PackageKey, Type, TypeKey};

// ---- numbers that the table has

pub fn has_type(rows: &[u32], t: TypeKey) -> bool
    ensures { Says rows.now result (λ T. has_type T t) }
{
    t.0 < type_count(rows)
}

pub fn has_package(rows: &[u32], p: Option<PackageKey>) -> bool
    ensures { Says rows.now result (λ T. has_package T (package_meant p)) }
{
    match p {
        None => true,
        Some(k) => k.0 < package_count(rows),
    }
}

// What an F or M line refers to is there.
pub fn member_within(rows: &[u32], m: ObjKey) -> bool
    ensures { SaysOf rows.now m result (λ T x. has_type T x.type && has_package T x.pkg) }
{
    has_type(rows, member_type(rows, m)) && has_package(rows, member_package(rows, m))
}

// ---- what a T line refers to

// A test of each reference by itself.
pub trait Reference {
    // the T line of t may name e
    ghost passes: { Table → TypeKey → TypeKey → Bool };

    fn ref_passes(rows: &[u32], t: TypeKey, e: TypeKey) -> bool
        ensures { Says rows.now result (λ T. passes T t e) };

    // Each element of a tuple passes.
    fn elements_pass(rows: &[u32], t: TypeKey) -> bool
        requires { Laid rows.now × (t.0 < type_count rows.now) }
        ensures { SaysEach rows.now t result (λ T. passes T t) };
}

impl Reference for Lacking {
    ghost passes = { λ T t. has_type T };

    fn ref_passes(rows: &[u32], _t: TypeKey, e: TypeKey) -> bool {
        has_type(rows, e)
    }

    fn elements_pass(rows: &[u32], t: TypeKey) -> bool {
        elements_within(rows, t)
    }
}

impl Reference for Forbidden {
    ghost passes = { may_refer };

    fn ref_passes(rows: &[u32], t: TypeKey, e: TypeKey) -> bool {
        may_refer(rows, t, e)
    }

    fn elements_pass(rows: &[u32], t: TypeKey) -> bool {
        elements_allowed(rows, t)
    }
}

// Each reference of the T line of t passes.
pub fn refs_pass<R: Reference>(rows: &[u32], t: TypeKey) -> bool
    requires { Laid rows.now × (t.0 < type_count rows.now) }
    ensures { Says rows.now result (λ T. every (R.passes T t) (refs (kind_at T t))) }
{
    match type_of(rows, t) {
        Type::Basic(_) | Type::Struct(_, _) | Type::Iface(_, _) => true,
        Type::Array(_, e)
        | Type::Slice(e)
        | Type::Pointer(e)
        | Type::Chan(_, e)
        | Type::Named(e, _, _) => R::ref_passes(rows, t, e),
        Type::Map(d, e) | Type::Func(_, d, e) => {
            R::ref_passes(rows, t, d) && R::ref_passes(rows, t, e)
        }
        Type::Tuple(_, _) => R::elements_pass(rows, t),
    }
}
