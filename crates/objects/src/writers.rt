// The writers of a table's rows: each adds what one line of the text says, keeps the rows in order (`Laid`), and says which table they then hold.
ghost use Rattle.std.specs.Prelude.{◌≡◌, [], ◌∷◌, ◌≢◌, ◌+◌, ◌<◌, ◌≤◌, length};
ghost use Rattle.std.proofs.lemmas.List.Edits.{sets};
ghost use Rattle.objects.specs.Bounds.{max_packages, max_types, max_members, max_elements, row_words, members_at};
ghost use Rattle.objects.specs.Table.{Numbered, plus_package, plus_type, plus_member};
ghost use Rattle.objects.specs.Rows.{package_from, package_meant, package_count, type_count, member_count_of, element_count, type_word, signs_at, bytes_at, kind_of, table_of};
ghost use Rattle.objects.specs.Laid.{types_used, used, Laid, Holds, RankPut, SignPut, SignedPut, end_of, last_type, raised, member_of, plus_element};

use crate::bounds::{PACKAGE_WORDS, PACKAGES_AT, ROW_WORDS, SIGNED_AT, TYPES_AT};
use crate::kinds::TUPLE;
use crate::rows::{
    element_count, member_count, members_at, package_count, signs_at, type_count, word,
};
use crate::{ObjKey, PackageKey, TypeKey};

// ---- words

// The words of a row: of a package, a type or a member.
fn put_row<const WORDS: usize>(rows: &mut [u32], at: usize, row: [u32; WORDS])
    requires { at + WORDS ≤ length rows.old }
    ensures { rows.new ≡ sets rows.old at row.entry }
{
    rows[at..at + WORDS].copy_from_slice(&row);
}

// The word of a member's row that says its package.
fn package_said(p: Option<PackageKey>) -> u32
    requires { Numbered (package_meant p) }
    ensures { package_from result ≡ p }
{
    match p {
        None => 0,
        Some(k) => k.0 + 1,
    }
}

// Where the members of a new type start: behind all members, a tuple's elements behind all elements.
fn start(rows: &[u32], kind: u32) -> u32
    ensures { result ≡ end_of rows.now kind }
{
    if kind == TUPLE {
        element_count(rows)
    } else {
        member_count(rows)
    }
}

// One member or element more of the last type.
fn raise(rows: &mut [u32])
    requires { Laid rows.old × (0 < type_count rows.old) }
    ensures { rows.new ≡ raised rows.old }
{
    let n = type_count(rows) - 1;
    let at = TYPES_AT + ROW_WORDS * (n as usize) + 5;
    let count = word(rows, at) + 1;
    rows[at] = count;
}

// ---- lines

// A P line, whose path stands at a place of the text.
pub fn put_package(rows: &mut [u32], place: u32, len: u32)
    requires { Laid rows.old × (package_count rows.old < max_packages) }
    ensures holds { Holds rows.new (λ text. plus_package (table_of text rows.old) (bytes_at text place len)) }
    ensures rows_unchanged { element_count rows.new ≡ element_count rows.old }
{
    let p = package_count(rows);
    put_row(
        rows,
        PACKAGES_AT + PACKAGE_WORDS * (p as usize),
        [place, len],
    );
    rows[0] = p + 1;
}

// A T line, as yet without members and elements.
pub fn put_type(rows: &mut [u32], kind: u32, a: u32, b: u32, c: u32, line: u32)
    requires { Laid rows.old × (type_count rows.old < max_types) × (types_used rows.old + row_words ≤ members_at (length rows.old)) }
    ensures holds { Holds rows.new (λ text. plus_type (table_of text rows.old) line (kind_of text rows.old kind a b c 0 0)) }
    ensures rows_unchanged { element_count rows.new ≡ element_count rows.old }
{
    let n = type_count(rows);
    let first = start(rows, kind);
    put_row(
        rows,
        TYPES_AT + ROW_WORDS * (n as usize),
        [kind, a, b, c, first, 0, line, 0],
    );
    rows[1] = n + 1;
}

// An F or M line under the last type.
pub fn put_member(
    rows: &mut [u32],
    name: u32,
    len: u32,
    pkg: Option<PackageKey>,
    t: TypeKey,
    form: u32,
    tag: u32,
    width: u32,
    line: u32,
)
    requires { Laid rows.old × (member_count_of rows.old < max_members) × (0 < type_count rows.old) × (type_word rows.old (last_type rows.old) 0 ≢ 6) × (used rows.old + row_words ≤ length rows.old) × Numbered (package_meant pkg) }
    ensures holds { Holds rows.new (λ text. plus_member (table_of text rows.old) line (member_of text (member_count_of rows.old) name len (package_meant pkg) t.0 form tag width)) }
    ensures rows_unchanged { element_count rows.new ≡ element_count rows.old }
{
    let m = member_count(rows);
    let at = members_at(rows);
    let said = package_said(pkg);
    raise(rows);
    put_row(
        rows,
        at + ROW_WORDS * (m as usize),
        [name, len, said, t.0, form, tag, width, line],
    );
    rows[2] = m + 1;
}

// One element more on the T line of the last type, a tuple.
pub fn put_element(rows: &mut [u32], e: TypeKey)
    requires { Laid rows.old × (element_count rows.old < max_elements) × (0 < type_count rows.old) × (type_word rows.old (last_type rows.old) 0 ≡ 6) × (used rows.old < length rows.old) }
    ensures holds { Holds rows.new (λ text. plus_element (table_of text rows.old) e) }
    ensures rows_after { element_count rows.new ≡ element_count rows.old + 1 }
{
    let n = element_count(rows);
    raise(rows);
    let at = rows.len() - 1 - n as usize;
    rows[at] = e.0;
    rows[3] = n + 1;
}

// The rank of a type, which the check for containment by value (10) leaves behind.
pub fn put_rank(rows: &mut [u32], t: TypeKey, rank: u32)
    requires { Laid rows.old × (t.0 < type_count rows.old) }
    ensures { RankPut rows.old t rank rows.new }
{
    rows[TYPES_AT + ROW_WORDS * (t.0 as usize) + 7] = rank;
}

// ---- signs of members

// The sign of a member, where signs have room before the elements.
pub fn put_sign(rows: &mut [u32], m: ObjKey, sign: u32)
    requires { Laid rows.old × (m.0 < member_count_of rows.old) × (signs_at rows.old + member_count_of rows.old + element_count rows.old ≤ length rows.old) }
    ensures { SignPut rows.old m sign rows.new }
{
    let at = signs_at(rows) + m.0 as usize;
    rows[at] = sign;
}

// Whether members are signed: not 0 if they are.
pub fn put_signed(rows: &mut [u32], flag: u32)
    requires { Laid rows.old }
    ensures { SignedPut rows.old flag rows.new }
{
    rows[SIGNED_AT] = flag;
}
