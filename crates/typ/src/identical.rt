// I: type identity. Two functions call each other, as in goscript: one compares types, the other their parts. A pair of types met before counts as
// identical, since whatever tells it apart is found where it was met first. So does a pair of one class: it follows from the pairs of interfaces that came up,
// since identity is symmetric and transitive.
ghost use Rattle.std.specs.Prelude.{◌≡◌, true, false, ◌⊎◌, ℕ, ◌/◌, ◌<◌, ◌≤◌, length, replicate};
ghost use Rattle.objects.specs.Bounds.{max_types, pair_words, mark_words};
ghost use Rattle.objects.specs.Rows.{type_count, table_of};
ghost use Rattle.rules.specs.Library.{Library};
ghost use Rattle.rules.specs.Identity.{identical};
ghost use Rattle.type_parts.specs.Parts.{same_numbers, Peers};
ghost use Rattle.pair_marks.specs.Marks.{met};
ghost use Rattle.pair_marks.specs.Classes.{OneClass};
ghost use Rattle.typ.specs.Depth.{open_levels, deepest, Within, PartsWithin};
ghost use Rattle.pair_marks.specs.Pairs.{pair};
ghost use Rattle.typ.specs.Compared.{Entered, Well, Compared, PartsCompared, AtOnce};

use crate::opening::{Round, open_round};
use objects::TypeKey;
use objects::bounds::MAX_TYPES;
use objects::kinds::IFACE;
use objects::rows::{first_member, kind_number, type_count, type_word};
use pair_marks::classes::{join, number};
use pair_marks::marks::{clear, is_met, set_met};
use pair_marks::pairs::{pair_number, pair_words};
use type_parts::parts::{kin, mismatch, part_at, part_count, part_in};

// So many levels may be nested before pairs of interfaces are put off. Below the last that is not lie only types whose numbers fall: 250 levels and one for
// each type at most, for each call requires `level < deepest` (specs/Depth.antt). docs/ENTRY.md has what stack they take.
const DEEP: usize = 250;

// The pair of x and y was met, or the two are of one class.
fn known(marks: &[u32], labels: &[u32], x: TypeKey, y: TypeKey) -> bool
    requires x_lt_max_types { (x.0 < max_types) × (y.0 < max_types) × (pair x y / 32 < length marks.now) }
    requires x_in_bounds { (x.0 < length labels.now) × (y.0 < length labels.now) }
    ensures one_class { result ≡ true → OneClass labels.now x y ⊎ (met marks.now (pair x y) ≡ true) }
    ensures y_value { result ≡ false → met marks.now (pair x y) ≡ false }
{
    labels[x.0 as usize] == labels[y.0 as usize] || is_met(marks, pair_number(x, y))
}

// The pair of x and y, of kind k, is met, if it is to be opened now: a pair of interfaces below DEEP levels is put off. Interfaces are joined either way, so that
// fewer pairs of them come up than there are types; no other types are joined, for a join goes over all labels.
fn enter_pair(
    marks: &mut [u32],
    labels: &mut [u32],
    k: u32,
    x: TypeKey,
    y: TypeKey,
    level: usize,
) -> bool
    requires x_lt_max_types { (x.0 < max_types) × (y.0 < max_types) × (pair x y / 32 < length marks.old) × (met marks.old (pair x y) ≡ false) }
    requires x_in_bounds { (x.0 < length labels.old) × (y.0 < length labels.old) }
    ensures entered { Entered marks.old marks.new labels.old labels.new x y result }
    ensures level_lt_open_levels { result ≡ true → k ≡ 9 → level < open_levels }
{
    if k == IFACE {
        join(labels, x, y);
        if DEEP <= level {
            return false;
        }
    }
    set_met(marks, pair_number(x, y));
    true
}

// Types x and y are compared, below `level` calls of this function. Whatever else tells them apart is looked at before the pair is met and before their parts
// are (`AtOnce`). Interfaces lie on cycles, so that a pair of them must be met once and no more; every other pair is too, since it may come up many times.
#[cycle(identical_impl_identical_impl_o)]
pub fn identical_impl(
    text: &[u8],
    rows: &[u32],
    marks: &mut [u32],
    labels: &mut [u32],
    x: TypeKey,
    y: TypeKey,
    level: usize,
) -> bool
    requires library { Library text.now rows.now }
    requires x_bound { (x.0 < type_count rows.now) × (y.0 < type_count rows.now) × (pair_words (type_count rows.now) ≤ length marks.old) }
    requires well { Well (table_of text.now rows.now) marks.old labels.old }
    requires level_lt_deepest { (level < deepest) × Within rows.now x y level }
    ensures compared { Compared (table_of text.now rows.now) marks.old marks.new labels.old labels.new x y result }
    ensures at_once { AtOnce (table_of text.now rows.now) marks.old marks.new labels.old labels.new x y result }
{
    if x == y {
        return true;
    }
    if known(marks, labels, x, y) {
        return true;
    }
    let told_apart = mismatch(text, rows, x, y);
    if told_apart {
        return false;
    }
    let k = kind_number(rows, x);
    if !enter_pair(marks, labels, k, x, y, level) {
        return true;
    }
    identical_impl_o(text, rows, marks, labels, x, y, level + 1)
}

// The parts of x and y, which nothing else tells apart, are compared in turn, below `level` calls of `identical_impl`.
#[cycle(identical_impl_identical_impl_o)]
pub fn identical_impl_o(
    text: &[u8],
    rows: &[u32],
    marks: &mut [u32],
    labels: &mut [u32],
    x: TypeKey,
    y: TypeKey,
    level: usize,
) -> bool
    requires library { Library text.now rows.now }
    requires peers { Peers (table_of text.now rows.now) x y × (pair_words (type_count rows.now) ≤ length marks.old) }
    requires well { Well (table_of text.now rows.now) marks.old labels.old }
    requires level_lt_deepest { (level < deepest) × PartsWithin rows.now x y level }
    ensures { PartsCompared (table_of text.now rows.now) marks.old marks.new labels.old labels.new x y result }
{
    let n = part_count(rows, x);
    let j = type_word(rows, x, 0);
    let k = type_word(rows, y, 0);
    let first = first_member(rows, x);
    let second = first_member(rows, y);
    for i in 0..n {
        let p = part_in(rows, x, j, first, i);
        let q = part_in(rows, y, k, second, i);
        if !identical_impl(text, rows, marks, labels, p, q, level) {
            return false;
        }
    }
    true
}

// Types p and q differ by kind or own number, whatever their parts are.
fn unlike(rows: &[u32], p: TypeKey, q: TypeKey) -> bool
    ensures { result ≡ true → same_numbers rows.now p q ≡ false }
{
    p != q && !kin(rows, p, q)
}

// Types x and y, which nothing but their parts tells apart, have parts that are unlike. This looks one level deep and takes no marks, so that none need be
// cleared.
fn apart(text: &[u8], rows: &[u32], x: TypeKey, y: TypeKey) -> bool
    requires library { Library text.now rows.now }
    requires peers { Peers (table_of text.now rows.now) x y }
    ensures { result ≡ true → identical (table_of text.now rows.now) x y ≡ false }
{
    let n = part_count(rows, x);
    for i in 0..n {
        let p = part_at(rows, x, i);
        let q = part_at(rows, y, i);
        if unlike(rows, p, q) {
            return true;
        }
    }
    false
}

// Types x and y are identical. Every type begins as a class of its own; what was put off is opened, round after round, until nothing is left.
fn decide_by(
    text: &[u8],
    rows: &[u32],
    marks: &mut [u32],
    labels: &mut [u32],
    x: TypeKey,
    y: TypeKey,
) -> bool
    requires library { Library text.now rows.now }
    requires peers { Peers (table_of text.now rows.now) x y × (pair_words (type_count rows.now) ≤ length marks.old) }
    requires rows_in_bounds { (type_count rows.now ≤ length labels.old) × (length labels.old ≤ max_types) }
    requires by_index { (p : ℕ) → met marks.old p ≡ false }
    ensures { result ≡ identical (table_of text.now rows.now) x y }
{
    number(labels);
    if !identical_impl_o(text, rows, marks, labels, x, y, 0) {
        return false;
    }
    loop {
        match open_round(text, rows, marks, labels, x, y) {
            Round::Apart => return false,
            Round::Settled => return true,
            Round::Opened => {}
        }
    }
}

// The same with labels of its own, one for each type of the table.
fn decide(text: &[u8], rows: &[u32], marks: &mut [u32], x: TypeKey, y: TypeKey) -> bool
    requires library { Library text.now rows.now }
    requires peers { Peers (table_of text.now rows.now) x y × (pair_words (type_count rows.now) ≤ length marks.old) }
    requires by_index { (p : ℕ) → met marks.old p ≡ false }
    ensures { result ≡ identical (table_of text.now rows.now) x y }
{
    let mut labels = [0u32; MAX_TYPES];
    let types = type_count(rows) as usize;
    decide_by(text, rows, marks, &mut labels[0..types], x, y)
}

// The same, and every word lent is cleared.
fn settle(text: &[u8], rows: &[u32], marks: &mut [u32], x: TypeKey, y: TypeKey) -> bool
    requires library { Library text.now rows.now }
    requires peers { Peers (table_of text.now rows.now) x y × (pair_words (type_count rows.now) ≤ length marks.old) }
    requires marks_value { marks.old ≡ replicate (length marks.old) 0 }
    ensures value { result ≡ identical (table_of text.now rows.now) x y }
    ensures marks_unchanged { marks.new ≡ marks.old }
{
    let r = decide(text, rows, marks, x, y);
    clear(marks);
    r
}

// Types x and y are identical. The marks are 0 before and after; those of the pairs of the table's types are all that is used of them, and cleared. Types that
// are told apart whatever their parts are or by their parts at once, and one type with itself, leave them alone; so does a named type, whose own number is its
// alone.
pub fn identical(text: &[u8], rows: &[u32], marks: &mut [u32], x: TypeKey, y: TypeKey) -> bool
    requires library { Library text.now rows.now }
    requires x_bound { (x.0 < type_count rows.now) × (y.0 < type_count rows.now) × (mark_words ≤ length marks.old) }
    requires marks_value { marks.old ≡ replicate (length marks.old) 0 }
    ensures value { result ≡ identical (table_of text.now rows.now) x y }
    ensures marks_unchanged { marks.new ≡ marks.old }
{
    if x == y {
        return true;
    }
    if mismatch(text, rows, x, y) || apart(text, rows, x, y) {
        return false;
    }
    let words = pair_words(type_count(rows) as usize);
    settle(text, rows, &mut marks[0..words], x, y)
}
