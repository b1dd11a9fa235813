// The tests of refusals 7 and 8, which each line is put to.
ghost use Rattle.std.specs.Prelude.{Bool, ◌<◌, List};
ghost use Rattle.objects.specs.Table.{Table, Member, kind_at};
ghost use Rattle.objects.specs.Rows.{type_count};
ghost use Rattle.objects.specs.Types.{number_read};
ghost use Rattle.objects.specs.Laid.{Laid};
ghost use Rattle.rules.specs.Checks.{Item, type_item, member_item, lacking, forbidden};
ghost use Rattle.references.specs.Lines.{Says, SaysOf};

use crate::allowed::{member_allowed, type_allowed};
use crate::refs::{member_within, refs_pass};
use objects::{ObjKey, TypeKey};

// A test of the lines of a table.
pub trait Test {
    // a line fails
    ghost fails: { Table → Item → Bool };

    // The T line of t fails.
    fn type_fails(rows: &[u32], t: TypeKey) -> bool
        requires { Laid rows.now × (t.0 < type_count rows.now) }
        ensures { Says rows.now result (λ T. fails T (type_item t (kind_at T t))) };

    // The line of m, a member under t, fails. It does not matter which members stand above it.
    fn member_fails(rows: &[u32], t: TypeKey, m: ObjKey) -> bool
        requires { (t.0 < type_count rows.now) × (7 < number_read rows.now t) }
        ensures { (above : List Member) → SaysOf rows.now m result (λ T x. fails T (member_item t (kind_at T t) above x)) };
}

// 7: "A line refers to a package or type number that the table lacks."
#[derive(Clone, Copy)]
pub struct Lacking;

impl Test for Lacking {
    ghost fails = { lacking };

    fn type_fails(rows: &[u32], t: TypeKey) -> bool {
        !refs_pass::<Lacking>(rows, t)
    }

    fn member_fails(rows: &[u32], _t: TypeKey, m: ObjKey) -> bool {
        !member_within(rows, m)
    }
}

// 8: "A line refers to a kind of type not allowed there."
#[derive(Clone, Copy)]
pub struct Forbidden;

impl Test for Forbidden {
    ghost fails = { forbidden };

    fn type_fails(rows: &[u32], t: TypeKey) -> bool {
        !type_allowed(rows, t)
    }

    fn member_fails(rows: &[u32], t: TypeKey, m: ObjKey) -> bool {
        !member_allowed(rows, t, m)
    }
}
