// Signs for the members of a loaded table: the hash of each name, densely in the rows, so that a search among many members passes over those of other names
// by one word each. It pays where many questions are asked of one table.
#![tactic(auto)]

ghost use Rattle.std.specs.Prelude.{◌≡◌, ◌+◌, ◌≤◌, length};
ghost use Rattle.objects.specs.Rows.{member_count_of, element_count, signs_at, table_of};
ghost use Rattle.objects.specs.Laid.{Laid};
ghost use Rattle.rules.specs.Library.{Library};
ghost use Rattle.signs.specs.Signing.{Signing};

use objects::ObjKey;
use objects::rows::{element_count, member_count, signs_at};
use objects::writers::{put_sign, put_signed};
use text::hash::name_hash;

// The signs of all members, which have room.
fn put_signs(text: &[u8], rows: &mut [u32])
    requires { Laid rows.old × (signs_at rows.old + member_count_of rows.old + element_count rows.old ≤ length rows.old) }
    ensures { Signing text.now rows.old (member_count_of rows.old) rows.new }
{
    let n = member_count(rows);
    for m in 0..n {
        let sign = name_hash(text, rows, ObjKey(m)) as u32;
        put_sign(rows, ObjKey(m), sign);
    }
}

// Members are signed, if there is room between them and the elements of tuples. The table stays as it was.
pub fn sign_members(text: &[u8], rows: &mut [u32])
    requires { Library text.now rows.old }
    ensures library { Library text.now rows.new }
    ensures rows_unchanged { table_of text.now rows.new ≡ table_of text.now rows.old }
{
    let end = signs_at(rows) + member_count(rows) as usize + element_count(rows) as usize;
    if end <= rows.len() {
        put_signs(text, rows);
        put_signed(rows, 1);
    }
}
