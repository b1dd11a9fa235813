// The elements of a tuple, put to refusals 7 and 8. A table may be nearly all one tuple line, so each test has a loop of its own: what does not change is
// read before it, and an element and its kind without a look at where the rows end.
ghost use Rattle.std.specs.Prelude.{◌≡◌, ◌<◌};
ghost use Rattle.objects.specs.Lists.{Bytes, every};
ghost use Rattle.objects.specs.Table.{has_type, type_key};
ghost use Rattle.objects.specs.Rows.{type_count, type_word};
ghost use Rattle.objects.specs.Laid.{Laid};
ghost use Rattle.rules.specs.Checks.{may_refer};
ghost use Rattle.references.specs.Lines.{Says, SaysEach, Elements};

use crate::allowed::may_refer;
use objects::TypeKey;
use objects::bounds::{ROW_WORDS, TYPES_AT};
use objects::kinds::TUPLE;
use objects::rows::{first_member, member_total, type_count};

// ---- words that are there

// The words of a tuple's elements, the last first: elements stand from the last word downwards.
fn element_words(rows: &[u32], t: TypeKey) -> &[u32]
    requires { Laid rows.now × (t.0 < type_count rows.now) }
    ensures { Elements rows.now t result.now }
{
    let end = rows.len() - first_member(rows, t) as usize;
    let from = end - member_total(rows, t) as usize;
    &rows[from..end]
}

// The word of a type's kind.
fn kind_word(rows: &[u32], e: TypeKey) -> u32
    requires { Laid rows.now × (e.0 < type_count rows.now) }
    ensures { result ≡ type_word rows.now e 0 }
{
    let at = TYPES_AT + ROW_WORDS * (e.0 as usize);
    rows[at]
}

// ---- 7

// The table has each element. All are looked at, whether one is lacking or not, so that several can be taken at a time.
pub fn elements_within(rows: &[u32], t: TypeKey) -> bool
    requires { Laid rows.now × (t.0 < type_count rows.now) }
    ensures { SaysEach rows.now t result has_type }
{
    let n = type_count(rows);
    let words = element_words(rows, t);
    let mut all = true;
    for e in words {
        all &= *e < n;
    }
    all
}

// ---- 8

// One element: most are of a smaller number, and then it is enough that they are no tuple.
fn element_allowed(rows: &[u32], t: TypeKey, e: TypeKey) -> bool
    requires { Laid rows.now × (t.0 < type_count rows.now) }
    ensures { Says rows.now result (λ T. may_refer T t e) }
{
    if e.0 < t.0 {
        kind_word(rows, e) != TUPLE
    } else {
        may_refer(rows, t, e)
    }
}

// The tuple t may refer to each element.
pub fn elements_allowed(rows: &[u32], t: TypeKey) -> bool
    requires { Laid rows.now × (t.0 < type_count rows.now) }
    ensures { SaysEach rows.now t result (λ T. may_refer T t) }
{
    let words = element_words(rows, t);
    for e in words {
        if !element_allowed(rows, t, TypeKey(*e)) {
            return false;
        }
    }
    true
}
