// The identity of members and the order of their ids, as goscript's obj.rs has them (`same_id`, `get_id`), by comparing the bytes of the text: no id is
// ever built.
#![tactic(auto)]

ghost use Rattle.std.specs.Prelude.{◌≡◌, true, ◌∷◌, ◌-◌, ◌≤◌, length, get_or};
ghost use Rattle.objects.specs.Table.{has_package};
ghost use Rattle.objects.specs.Rows.{bytes_at, package_meant, member_at, table_of};
ghost use Rattle.text.specs.Bytes.{exported, is_blank, below_bytes};
ghost use Rattle.text.specs.Compare.{order_of};
ghost use Rattle.rules.specs.Members.{same_id, identity_of, id_bytes};
ghost use Rattle.rules.specs.Sound.{Ordered};
ghost use Rattle.obj.specs.Ids.{asked_id, joined, id_meant};

use objects::rows::{member_package, member_word, package_word};
use objects::{ObjKey, PackageKey};
use std::cmp::Ordering;
use text::bytes::within;
use text::compare::{order, same, same_across, span};

// The id of a member as places in the text: its form, its package's path and its name (specs/Ids.antt).
#[derive(Clone, Copy)]
pub struct Id {
    pub form: u64,
    pub path: u32,
    pub path_len: u32,
    pub name: u32,
    pub len: u32,
}

// ---- names

fn byte_at(s: &[u8], i: usize) -> u64
    ensures { result ≡ get_or s.now i 0 }
{
    if i < s.len() { u64::from(s[i]) } else { 0 }
}

// "first byte A to Z"
pub fn exported(names: &[u8], at: u32, len: u32) -> bool
    ensures { result ≡ exported (bytes_at names.now at len) }
{
    within(65, 90, byte_at(span(names, at as usize, len as usize), 0))
}

pub fn is_blank(text: &[u8], rows: &[u32], m: ObjKey) -> bool
    ensures { result ≡ is_blank (member_at text.now rows.now m).name }
{
    let name = span(
        text,
        member_word(rows, m, 0) as usize,
        member_word(rows, m, 1) as usize,
    );
    same(name, b"_")
}

// ---- identity

// Whether a member is of the name that is asked for from a package: "equal package paths or no package on both sides", and where paths ascend, packages of one
// path have one number.
pub fn same_id(
    text: &[u8],
    rows: &[u32],
    m: ObjKey,
    names: &[u8],
    at: u32,
    len: u32,
    pkg: Option<PackageKey>,
) -> bool
    requires { (has_package (table_of text.now rows.now) (member_at text.now rows.now m).pkg ≡ true) × (has_package (table_of text.now rows.now) (package_meant pkg) ≡ true) × Ordered (table_of text.now rows.now) }
    ensures { result ≡ same_id (identity_of (table_of text.now rows.now) (member_at text.now rows.now m)) (asked_id text.now rows.now names.now at len pkg) }
{
    let a = member_word(rows, m, 0);
    let n = member_word(rows, m, 1);
    same_across(
        text,
        a as usize,
        n as usize,
        names,
        at as usize,
        len as usize,
    ) && (exported(text, a, n) || member_package(rows, m) == pkg)
}

pub fn same_member(text: &[u8], rows: &[u32], m: ObjKey, n: ObjKey) -> bool
    requires { (has_package (table_of text.now rows.now) (member_at text.now rows.now m).pkg ≡ true) × (has_package (table_of text.now rows.now) (member_at text.now rows.now n).pkg ≡ true) × Ordered (table_of text.now rows.now) }
    ensures { result ≡ same_id (identity_of (table_of text.now rows.now) (member_at text.now rows.now m)) (identity_of (table_of text.now rows.now) (member_at text.now rows.now n)) }
{
    same_id(
        text,
        rows,
        m,
        text,
        member_word(rows, n, 0),
        member_word(rows, n, 1),
        member_package(rows, n),
    )
}

// ---- ids

pub fn id_of(text: &[u8], rows: &[u32], m: ObjKey) -> Id
    requires { has_package (table_of text.now rows.now) (member_at text.now rows.now m).pkg ≡ true }
    ensures { id_meant text.now result ≡ id_bytes (identity_of (table_of text.now rows.now) (member_at text.now rows.now m)) }
{
    let name = member_word(rows, m, 0);
    let len = member_word(rows, m, 1);
    if exported(text, name, len) {
        return Id {
            form: 0,
            path: 0,
            path_len: 0,
            name,
            len,
        };
    }
    match member_package(rows, m) {
        None => Id {
            form: 1,
            path: 0,
            path_len: 0,
            name,
            len,
        },
        Some(p) => Id {
            form: 2,
            path: package_word(rows, p, 0),
            path_len: package_word(rows, p, 1),
            name,
            len,
        },
    }
}

fn id_length(form: u64, path: &[u8], name: &[u8]) -> usize
    requires { (length path.now ≤ 4294967295) × (length name.now ≤ 4294967295) }
    ensures { result ≡ length (joined form path.now name.now) }
{
    match form {
        0 => name.len(),
        1 => name.len() + 2,
        _ => path.len() + 1 + name.len(),
    }
}

// What stands behind n bytes and a dot, or is the dot.
fn dotted_byte(n: usize, name: &[u8], i: usize) -> u64
    requires { n ≤ i }
    ensures { result ≡ get_or (46 ∷ name.now) (i - n) 0 }
{
    if i == n { 46 } else { byte_at(name, i - n - 1) }
}

fn id_byte(form: u64, path: &[u8], name: &[u8], i: usize) -> u64
    ensures { result ≡ get_or (joined form path.now name.now) i 0 }
{
    match form {
        0 => byte_at(name, i),
        1 => { if i == 0 { 95 } else { dotted_byte(1, name, i) } }
        _ => {
            if i < path.len() {
                byte_at(path, i)
            } else {
                dotted_byte(path.len(), name, i)
            }
        }
    }
}

// The order of two ids by their parts.
fn order_parts(f: u64, p: &[u8], a: &[u8], g: u64, q: &[u8], b: &[u8]) -> Ordering
    requires { (length p.now ≤ 4294967295) × (length a.now ≤ 4294967295) × (length q.now ≤ 4294967295) × (length b.now ≤ 4294967295) }
    ensures { result ≡ order_of (joined f p.now a.now) (joined g q.now b.now) }
{
    let n = id_length(f, p, a);
    let m = id_length(g, q, b);
    for i in 0..n {
        if m <= i {
            return Ordering::Greater;
        }
        let x = id_byte(f, p, a, i);
        let y = id_byte(g, q, b, i);
        if x < y {
            return Ordering::Less;
        }
        if y < x {
            return Ordering::Greater;
        }
    }
    if n < m {
        Ordering::Less
    } else {
        Ordering::Equal
    }
}

// Whether the same places stand before the names.
fn same_before(a: Id, b: Id) -> bool
    ensures { result ≡ true → (a.form ≡ b.form) × (a.path ≡ b.path) × (a.path_len ≡ b.path_len) }
{
    a.form == b.form && a.path == b.path && a.path_len == b.path_len
}

// Ids with the same before their names compare as their names do.
pub fn order_ids(text: &[u8], a: Id, b: Id) -> Ordering
    ensures { result ≡ order_of (id_meant text.now a) (id_meant text.now b) }
{
    let m = span(text, a.name as usize, a.len as usize);
    let n = span(text, b.name as usize, b.len as usize);
    if same_before(a, b) {
        return order(m, n);
    }
    let p = span(text, a.path as usize, a.path_len as usize);
    let q = span(text, b.path as usize, b.path_len as usize);
    order_parts(a.form, p, m, b.form, q, n)
}

pub fn order_id(text: &[u8], rows: &[u32], m: ObjKey, n: ObjKey) -> Ordering
    requires { (has_package (table_of text.now rows.now) (member_at text.now rows.now m).pkg ≡ true) × (has_package (table_of text.now rows.now) (member_at text.now rows.now n).pkg ≡ true) }
    ensures { result ≡ order_of (id_bytes (identity_of (table_of text.now rows.now) (member_at text.now rows.now m))) (id_bytes (identity_of (table_of text.now rows.now) (member_at text.now rows.now n))) }
{
    order_ids(text, id_of(text, rows, m), id_of(text, rows, n))
}

pub fn below_id(text: &[u8], rows: &[u32], m: ObjKey, n: ObjKey) -> bool
    requires { (has_package (table_of text.now rows.now) (member_at text.now rows.now m).pkg ≡ true) × (has_package (table_of text.now rows.now) (member_at text.now rows.now n).pkg ≡ true) }
    ensures { result ≡ below_bytes (id_bytes (identity_of (table_of text.now rows.now) (member_at text.now rows.now m))) (id_bytes (identity_of (table_of text.now rows.now) (member_at text.now rows.now n))) }
{
    order_id(text, rows, m, n).is_lt()
}
