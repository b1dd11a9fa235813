// What a type contains by value, one step: "through array elements, fields and a named type's u".
ghost use Rattle.std.specs.Prelude.{◌≡◌, ◌<◌};
ghost use Rattle.objects.specs.Rows.{type_count};
ghost use Rattle.objects.specs.Laid.{Laid};
ghost use Rattle.cycles.specs.Contents.{content_total, content_read};

use objects::kinds::{NAMED, STRUCT};
use objects::rows::{first_member, kind_number, member_total, member_type, type_word};
use objects::{ObjKey, TypeKey};

// An array's kind, in the order of `Type`; the others that have contents stand in objects::kinds.
const ARRAY: u32 = 1;

pub fn content_total(rows: &[u32], t: TypeKey) -> u32
    ensures { result ≡ content_total rows.now t }
{
    match kind_number(rows, t) {
        ARRAY | NAMED => 1,
        STRUCT => member_total(rows, t),
        _ => 0,
    }
}

// The i-th of them.
pub fn content(rows: &[u32], t: TypeKey, i: u32) -> TypeKey
    requires { Laid rows.now × (t.0 < type_count rows.now) × (i < content_total rows.now t) }
    ensures { result ≡ content_read rows.now t i }
{
    match kind_number(rows, t) {
        ARRAY => TypeKey(type_word(rows, t, 2)),
        STRUCT => member_type(rows, ObjKey(first_member(rows, t) + i)),
        _ => TypeKey(type_word(rows, t, 1)),
    }
}
