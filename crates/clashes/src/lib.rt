// Refusal 9 over the rows of a table: the line of the first member whose identity clashes, or that does not come after the method before it in an
// interface. A field or a method of a named type is compared with those above it, and with the fields of its struct, only if marks of names say that it
// may equal one of them: for names of different hashes the whole is linear. At worst, where an attacker chose names of one hash, each is compared with all.
#![tactic(auto)]

ghost use Rattle.std.specs.Prelude.{◌≡◌, true, false, not, ◌&&◌, ◌+◌, ◌≤◌, ◌<◌, length, take};
ghost use Rattle.std.proofs.Math.Option.{none};
ghost use Rattle.objects.specs.Bounds.{max_types, max_elements};
ghost use Rattle.objects.specs.Lists.{any};
ghost use Rattle.objects.specs.Table.{obj_key, has_package, members_of, fields_of, kind_at};
ghost use Rattle.objects.specs.Rows.{type_count, type_word, member_at, members_from, table_of};
ghost use Rattle.objects.specs.Types.{number_read, first_read, found};
ghost use Rattle.objects.specs.Laid.{Laid};
ghost use Rattle.text.specs.Bytes.{is_blank};
ghost use Rattle.text.specs.Hash.{hashes};
ghost use Rattle.rules.specs.Sound.{Ordered};
ghost use Rattle.rules.specs.Members.{same_member};
ghost use Rattle.rules.specs.Checks.{member_item, items, lacking, ascends, clashing};
ghost use Rattle.rules.specs.Stages.{first_unordered, first_item, lines_under};
ghost use Rattle.references.specs.Lines.{lines_read};
ghost use Rattle.clashes.specs.Known.{PackagedFrom, Packaged, Rising};
ghost use Rattle.clashes.specs.Marks.{bit_words, place_of, fields_number, MarkedAt, Grows, Noted, Ready, Readied, Prepared, Seen, Looked};

use crate::marks::{BIT_WORDS, fields_number, marked, meet, meet_all, place};
use obj::{below_id, is_blank, same_member};
use objects::bounds::MAX_TYPES;
use objects::kinds::{IFACE, NAMED, STRUCT};
use objects::rows::{first_member, kind_number, member_total, member_word, type_count, type_word};
use objects::{ObjKey, TypeKey};
use references::member_lines;
use text::hash::name_hash;

pub mod marks; // which names were met

// ---- members of one identity

// One of n members from a first one on has the identity of m.
fn any_same(text: &[u8], rows: &[u32], m: ObjKey, first: u32, n: u32) -> bool
    requires { (has_package (table_of text.now rows.now) (member_at text.now rows.now m).pkg ≡ true) × PackagedFrom text.now rows.now first n × (first + n ≤ max_elements) × Ordered (table_of text.now rows.now) }
    ensures { result ≡ any (same_member (table_of text.now rows.now) (member_at text.now rows.now m)) (members_from text.now rows.now first n) }
{
    for i in 0..n {
        if same_member(text, rows, m, ObjKey(first + i)) {
            return true;
        }
    }
    false
}

// "Blank fields `_` may repeat."
fn repeats(text: &[u8], rows: &[u32], m: ObjKey, first: u32, n: u32) -> bool
    requires { (has_package (table_of text.now rows.now) (member_at text.now rows.now m).pkg ≡ true) × PackagedFrom text.now rows.now first n × (first + n ≤ max_elements) × Ordered (table_of text.now rows.now) }
    ensures { result ≡ not (is_blank (member_at text.now rows.now m).name) && any (same_member (table_of text.now rows.now) (member_at text.now rows.now m)) (members_from text.now rows.now first n) }
{
    !is_blank(text, rows, m) && any_same(text, rows, m, first, n)
}

// "A named type's method differs from the fields of its struct."
fn in_fields(text: &[u8], rows: &[u32], m: ObjKey, u: TypeKey) -> bool
    requires { Laid rows.now × Packaged text.now rows.now × (has_package (table_of text.now rows.now) (member_at text.now rows.now m).pkg ≡ true) }
    ensures { result ≡ any (same_member (table_of text.now rows.now) (member_at text.now rows.now m)) (fields_of (kind_at (table_of text.now rows.now) u)) }
{
    if type_count(rows) <= u.0 {
        return false;
    }
    kind_number(rows, u) == STRUCT
        && any_same(text, rows, m, first_member(rows, u), member_total(rows, u))
}

// ---- methods of an interface

// Of the members from a first one on, the one behind n of them does not come after the last of these.
fn falls(text: &[u8], rows: &[u32], first: u32, n: u32) -> bool
    requires { PackagedFrom text.now rows.now first (n + 1) × (first + n ≤ max_elements) }
    ensures { result ≡ not (ascends (table_of text.now rows.now) (members_from text.now rows.now first n) (member_at text.now rows.now (obj_key (first + n)))) }
{
    n != 0 && !below_id(text, rows, ObjKey(first + (n - 1)), ObjKey(first + n))
}

// ---- the lines of a type

// The line of member i under t clashes. Methods of an interface that ascend have different identities, so that the one above is all that counts.
fn member_clashes(text: &[u8], rows: &[u32], t: TypeKey, i: u32) -> bool
    requires { Laid rows.now × Packaged text.now rows.now × (t.0 < type_count rows.now) × (i < lines_read rows.now t) × Rising text.now rows.now t i }
    ensures { result ≡ clashing (table_of text.now rows.now) (member_item t (kind_at (table_of text.now rows.now) t) (take i (members_of (kind_at (table_of text.now rows.now) t))) (member_at text.now rows.now (obj_key (first_read rows.now t + i)))) }
{
    let first = first_member(rows, t);
    let m = ObjKey(first + i);
    match kind_number(rows, t) {
        IFACE => falls(text, rows, first, i),
        NAMED => {
            repeats(text, rows, m, first, i)
                || in_fields(text, rows, m, TypeKey(type_word(rows, t, 1)))
        }
        _ => repeats(text, rows, m, first, i),
    }
}

// ---- marks

// The fields of u's struct are marked.
fn meet_fields(text: &[u8], rows: &[u32], marks: &mut [u32], u: TypeKey)
    requires { Laid rows.now × (u.0 < type_count rows.now) × (bit_words ≤ length marks.old) }
    ensures { Noted marks.old (fields_number u.0) (fields_of (kind_at (table_of text.now rows.now) u)) marks.new }
{
    if kind_number(rows, u) == STRUCT {
        let k = fields_number(u.0);
        meet_all(
            text,
            rows,
            marks,
            k,
            first_member(rows, u),
            member_total(rows, u),
        );
    }
}

// They are, once for all named types.
fn meet_once(text: &[u8], rows: &[u32], marks: &mut [u32], done: &mut [u8], u: TypeKey)
    requires { Laid rows.now × (bit_words ≤ length marks.old) × (max_types ≤ length done.old) × Ready text.now rows.now marks.old done.old }
    ensures { Readied text.now rows.now u marks.new done.new }
{
    if type_count(rows) <= u.0 {
        return;
    }
    let at = u.0 as usize;
    if done[at] == 0 {
        meet_fields(text, rows, marks, u);
        done[at] = 1;
    }
}

// Before the first member of t: the fields that a named type's methods have to differ from are marked.
fn prepare(text: &[u8], rows: &[u32], marks: &mut [u32], done: &mut [u8], t: TypeKey)
    requires { Laid rows.now × (bit_words ≤ length marks.old) × (max_types ≤ length done.old) × Ready text.now rows.now marks.old done.old }
    ensures { Prepared text.now rows.now t marks.new done.new }
{
    if kind_number(rows, t) == NAMED {
        meet_once(text, rows, marks, done, TypeKey(type_word(rows, t, 1)));
    }
}

// A field of t's struct may have the name of this hash, where t is a named type.
fn field_marked(rows: &[u32], marks: &[u32], t: TypeKey, h: u64) -> bool
    requires { h < hashes }
    ensures { result ≡ false → number_read rows.now t ≡ 10 → MarkedAt marks.now (place_of (fields_number (type_word rows.now t 1)) h) → ⊥ }
{
    kind_number(rows, t) == NAMED && marked(marks, place(fields_number(type_word(rows, t, 1)), h))
}

// ---- the lines of a type

// The line of member i under t clashes. It is compared only if its name was marked; the name is marked now, unless t is an interface.
fn line_clashes(text: &[u8], rows: &[u32], marks: &mut [u32], t: TypeKey, i: u32) -> bool
    requires { Laid rows.now × Packaged text.now rows.now × (t.0 < type_count rows.now) × (i < lines_read rows.now t) × Rising text.now rows.now t i × (bit_words ≤ length marks.old) × Seen text.now rows.now marks.old t i }
    ensures { Looked text.now rows.now marks.old t i result marks.new }
{
    if kind_number(rows, t) == IFACE {
        return member_clashes(text, rows, t, i);
    }
    let h = name_hash(text, rows, ObjKey(first_member(rows, t) + i));
    let field = field_marked(rows, marks, t, h);
    let p = place(t.0, h);
    let own = meet(marks, p);
    let known = own || field;
    known && member_clashes(text, rows, t, i)
}

fn first_line(text: &[u8], rows: &[u32], marks: &mut [u32], t: TypeKey) -> Option<u32>
    requires { Laid rows.now × Packaged text.now rows.now × (t.0 < type_count rows.now) × (bit_words ≤ length marks.old) × Seen text.now rows.now marks.old t 0 }
    ensures result_value { found result ≡ first_item (table_of text.now rows.now) (clashing (table_of text.now rows.now)) (lines_under t (kind_at (table_of text.now rows.now) t)) }
    ensures grows { Grows marks.old marks.new }
{
    let first = first_member(rows, t);
    for i in 0..member_lines(rows, t) {
        if line_clashes(text, rows, marks, t, i) {
            return Some(member_word(rows, ObjKey(first + i), 7));
        }
    }
    None
}

fn first_clash(
    text: &[u8],
    rows: &[u32],
    marks: &mut [u32],
    done: &mut [u8],
    t: TypeKey,
) -> Option<u32>
    requires { Laid rows.now × Packaged text.now rows.now × (t.0 < type_count rows.now) × (bit_words ≤ length marks.old) × (max_types ≤ length done.old) × Ready text.now rows.now marks.old done.old }
    ensures result_value { found result ≡ first_item (table_of text.now rows.now) (clashing (table_of text.now rows.now)) (lines_under t (kind_at (table_of text.now rows.now) t)) }
    ensures ready { Ready text.now rows.now marks.new done.new }
{
    if member_lines(rows, t) == 0 {
        return None;
    }
    prepare(text, rows, marks, done, t);
    first_line(text, rows, marks, t)
}

// ---- the whole table

fn first_of(text: &[u8], rows: &[u32], marks: &mut [u32], done: &mut [u8]) -> Option<u32>
    requires { Laid rows.now × Packaged text.now rows.now × (bit_words ≤ length marks.old) × (max_types ≤ length done.old) × Ready text.now rows.now marks.old done.old }
    ensures { found result ≡ first_item (table_of text.now rows.now) (clashing (table_of text.now rows.now)) (items (table_of text.now rows.now)) }
{
    for t in 0..type_count(rows) {
        if let Some(line) = first_clash(text, rows, marks, done, TypeKey(t)) {
            return Some(line);
        }
    }
    None
}

// 9, of a table that passed 14 and 7
pub fn clashing(text: &[u8], rows: &[u32]) -> Option<u32>
    requires { Laid rows.now × (first_unordered (table_of text.now rows.now).packages ≡ none) × (first_item (table_of text.now rows.now) (lacking (table_of text.now rows.now)) (items (table_of text.now rows.now)) ≡ none) }
    ensures { found result ≡ first_item (table_of text.now rows.now) (clashing (table_of text.now rows.now)) (items (table_of text.now rows.now)) }
{
    let mut marks = [0u32; BIT_WORDS];
    let mut done = [0u8; MAX_TYPES];
    first_of(text, rows, &mut marks, &mut done)
}
