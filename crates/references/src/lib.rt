// Refusals 7 and 8 over the rows of a table: the line of the first T, F or M line that refers to what the table lacks (7), or to a kind of type not
// allowed there (8). One walk over the types and the members under each serves both tests.
#![tactic(auto)]

ghost use Rattle.std.specs.Prelude.{◌≡◌, ◌<◌};
ghost use Rattle.objects.specs.Table.{kind_at};
ghost use Rattle.objects.specs.Rows.{type_count};
ghost use Rattle.objects.specs.Types.{found};
ghost use Rattle.objects.specs.Laid.{Laid};
ghost use Rattle.rules.specs.Checks.{items, lacking, forbidden};
ghost use Rattle.rules.specs.Stages.{first_item, lines_of, lines_under};
ghost use Rattle.references.specs.Lines.{Says, lines_read};

use crate::tests::{Forbidden, Lacking, Test};
use objects::kinds::FUNC;
use objects::rows::{first_member, kind_number, member_total, member_word, type_count, type_word};
use objects::{ObjKey, TypeKey};

pub mod tests; // the two tests of a line
pub mod refs; // what a line refers to
pub mod elements; // a tuple's elements
pub mod allowed; // what it may refer to

// ---- the lines of a type

// How many F and M lines stand under a T line.
pub fn member_lines(rows: &[u32], t: TypeKey) -> u32
    ensures { result ≡ lines_read rows.now t }
{
    if FUNC < kind_number(rows, t) {
        member_total(rows, t)
    } else {
        0
    }
}

// The first line under the T line of t that fails.
fn first_member_line<X: Test>(rows: &[u32], t: TypeKey) -> Option<u32>
    requires { Laid rows.now × (t.0 < type_count rows.now) }
    ensures { Says rows.now (found result) (λ T. first_item T (X.fails T) (lines_under t (kind_at T t))) }
{
    let first = first_member(rows, t);
    for i in 0..member_lines(rows, t) {
        let m = ObjKey(first + i);
        if X::member_fails(rows, t, m) {
            return Some(member_word(rows, m, 7));
        }
    }
    None
}

// The first line of t that fails: its T line, or one under it.
fn first_line_of<X: Test>(rows: &[u32], t: TypeKey) -> Option<u32>
    requires { Laid rows.now × (t.0 < type_count rows.now) }
    ensures { Says rows.now (found result) (λ T. first_item T (X.fails T) (lines_of t (kind_at T t))) }
{
    if X::type_fails(rows, t) {
        return Some(type_word(rows, t, 6));
    }
    first_member_line::<X>(rows, t)
}

// ---- the whole table

// The first line of the table that fails.
fn first_line<X: Test>(rows: &[u32]) -> Option<u32>
    requires { Laid rows.now }
    ensures { Says rows.now (found result) (λ T. first_item T (X.fails T) (items T)) }
{
    for t in 0..type_count(rows) {
        if let Some(line) = first_line_of::<X>(rows, TypeKey(t)) {
            return Some(line);
        }
    }
    None
}

// 7
pub fn lacking(rows: &[u32]) -> Option<u32>
    requires { Laid rows.now }
    ensures { Says rows.now (found result) (λ T. first_item T (lacking T) (items T)) }
{
    first_line::<Lacking>(rows)
}

// 8. It does not matter whether 7 was found.
pub fn forbidden(rows: &[u32]) -> Option<u32>
    requires { Laid rows.now }
    ensures { Says rows.now (found result) (λ T. first_item T (forbidden T) (items T)) }
{
    first_line::<Forbidden>(rows)
}
