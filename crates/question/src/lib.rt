// A question line, read by the cursor: its form and its numbers (refusal 11), and the second type of an N question (12).
#![tactic(auto)]

ghost use Rattle.std.specs.Prelude.{Some, ◌≡◌, true, ◌≤◌, ltb, length};
ghost use Rattle.std.proofs.Math.Option.{some};
ghost use Rattle.objects.specs.Bounds.{max_question};
ghost use Rattle.objects.specs.Lists.{Bytes};
ghost use Rattle.objects.specs.Rows.{type_count, table_of};
ghost use Rattle.text.specs.Bytes.{ascii};
ghost use Rattle.text.specs.Readers.{done, whole};
ghost use Rattle.text.specs.Cursors.{fields_left};
ghost use Rattle.rules.specs.Question.{Question, in_table, question_of};
ghost use Rattle.rules.specs.Asked.{wrong_second};
ghost use Rattle.question.specs.Asks.{asks_meant, behind_letter, form_of, Reads, package_known, known_read, Known};

use line_forms::fields::{package, small};
use objects::bounds::{MAX_QUESTION, MAX_REFERENCE};
use objects::kinds::IFACE;
use objects::rows::{kind_number, package_count, type_count};
use objects::{PackageKey, TypeKey};
use text::Cursor;

// The question of a line. S has the type, whether it is addressable, the package, and place and length of the name in the line.
#[derive(Clone, Copy)]
pub enum Ask {
    S(TypeKey, bool, Option<PackageKey>, u32, u32),
    M(TypeKey),
    N(TypeKey, TypeKey, bool),
    I(TypeKey, TypeKey),
    C(TypeKey),
    V,
}

// ---- the form

// The question, if no field is left.
fn ended(c: Cursor, a: Ask) -> Option<Ask>
    ensures { (line : Bytes) (q : Question) → Reads line (Some a) (some q) → Reads line result (whole (done q) (fields_left line c)) }
{
    c.done().then_some(a)
}

fn ask_s(c: Cursor, line: &[u8]) -> Option<Ask>
    requires { length line.now ≤ max_question }
    ensures { Reads line.now result (behind_letter (ascii "S") (fields_left line.now c)) }
{
    let (t, d) = small(line, c, MAX_REFERENCE)?;
    let (a, e) = small(line, d, 1)?;
    let (pkg, f) = package(line, e)?;
    let name = f.name(line)?;
    let len = name.to - name.from;
    ended(
        name.rest,
        Ask::S(TypeKey(t), a == 1, pkg, name.from as u32, len as u32),
    )
}

fn ask_m(c: Cursor, line: &[u8]) -> Option<Ask>
    ensures { Reads line.now result (behind_letter (ascii "M") (fields_left line.now c)) }
{
    let (t, d) = small(line, c, MAX_REFERENCE)?;
    ended(d, Ask::M(TypeKey(t)))
}

fn ask_n(c: Cursor, line: &[u8]) -> Option<Ask>
    ensures { Reads line.now result (behind_letter (ascii "N") (fields_left line.now c)) }
{
    let (t, d) = small(line, c, MAX_REFERENCE)?;
    let (i, e) = small(line, d, MAX_REFERENCE)?;
    let (s, f) = small(line, e, 1)?;
    ended(f, Ask::N(TypeKey(t), TypeKey(i), s == 1))
}

fn ask_i(c: Cursor, line: &[u8]) -> Option<Ask>
    ensures { Reads line.now result (behind_letter (ascii "I") (fields_left line.now c)) }
{
    let (x, d) = small(line, c, MAX_REFERENCE)?;
    let (y, e) = small(line, d, MAX_REFERENCE)?;
    ended(e, Ask::I(TypeKey(x), TypeKey(y)))
}

fn ask_c(c: Cursor, line: &[u8]) -> Option<Ask>
    ensures { Reads line.now result (behind_letter (ascii "C") (fields_left line.now c)) }
{
    let (t, d) = small(line, c, MAX_REFERENCE)?;
    ended(d, Ask::C(TypeKey(t)))
}

// The form alone, by its letter.
pub fn parse(line: &[u8]) -> Option<Ask>
    ensures { Reads line.now result (form_of line.now) }
{
    let n = line.len();
    if MAX_QUESTION < n {
        return None;
    }
    let c = Cursor::line(0, n);
    if let Some(d) = c.word(line, b"S") {
        return ask_s(d, line);
    }
    if let Some(d) = c.word(line, b"M") {
        return ask_m(d, line);
    }
    if let Some(d) = c.word(line, b"N") {
        return ask_n(d, line);
    }
    if let Some(d) = c.word(line, b"I") {
        return ask_i(d, line);
    }
    if let Some(d) = c.word(line, b"C") {
        return ask_c(d, line);
    }
    if let Some(d) = c.word(line, b"V") {
        return ended(d, Ask::V);
    }
    None
}

// ---- the table's numbers

fn has_type(rows: &[u32], t: TypeKey) -> bool
    ensures { result ≡ ltb t.0 (type_count rows.now) }
{
    t.0 < type_count(rows)
}

#[tactic(auto, unfolding(crate::specs::Asks::package_known))]
fn has_package(rows: &[u32], p: Option<PackageKey>) -> bool
    ensures { result ≡ package_known rows.now p }
{
    match p {
        Some(k) => k.0 < package_count(rows),
        None => true,
    }
}

#[tactic(auto, unfolding(crate::specs::Asks::known_read))]
fn known_words(rows: &[u32], a: Option<Ask>) -> bool
    ensures { result ≡ known_read rows.now a }
{
    match a {
        Some(Ask::S(t, _, pkg, _, _)) => has_type(rows, t) && has_package(rows, pkg),
        Some(Ask::M(t) | Ask::C(t)) => has_type(rows, t),
        Some(Ask::N(t, i, _)) => has_type(rows, t) && has_type(rows, i),
        Some(Ask::I(x, y)) => has_type(rows, x) && has_type(rows, y),
        Some(Ask::V) => true,
        None => false,
    }
}

// Whether the numbers are those of the table.
pub fn known(rows: &[u32], a: Option<Ask>) -> bool
    ensures value { (text line : Bytes) (q : Question) → asks_meant line a ≡ some q → result ≡ in_table (table_of text rows.now) q }
    ensures known { result ≡ true → Known rows.now a }
{
    known_words(rows, a)
}

// The question that a line asks of the table; none is refusal 11.
pub fn question(rows: &[u32], line: &[u8]) -> Option<Ask>
    ensures reads { (text : Bytes) → Reads line.now result (question_of (table_of text rows.now) line.now) }
    ensures known { Known rows.now result }
{
    let a = parse(line);
    if known(rows, a) { a } else { None }
}

// 12: "The second type of an N question is not itself of kind iface."
pub fn wrong_second(rows: &[u32], a: Option<Ask>) -> bool
    requires { Known rows.now a }
    ensures { (text line : Bytes) (q : Question) → asks_meant line a ≡ some q → result ≡ wrong_second (table_of text rows.now) q }
{
    let Some(asked) = a else {
        return false;
    };
    match asked {
        Ask::N(_, i, _) => kind_number(rows, i) != IFACE,
        _ => false,
    }
}
