// The pairs of interfaces that were put off are opened. Which they are the labels say: each type is compared with the one that its label names, unless their
// pair is met. Types of one class are then identical if all pairs met are.
ghost use Rattle.std.specs.Prelude.{◌<◌, ◌≤◌, length};
ghost use Rattle.objects.specs.Bounds.{pair_words};
ghost use Rattle.objects.specs.Rows.{type_count, table_of};
ghost use Rattle.rules.specs.Library.{Library};
ghost use Rattle.typ.specs.Compared.{Clean, AllClean, State, Turn};

use crate::identical::identical_impl_o;
use objects::TypeKey;
use objects::rows::type_count;
use pair_marks::marks::{is_met, set_met};
use pair_marks::pairs::pair_number;

// What one type or a round of all types has shown.
#[derive(Clone, Copy, PartialEq, Eq)]
pub enum Round {
    // two types of one class differ, and so x and y
    Apart,
    // nothing was put off
    Settled,
    // a pair that was put off is met now, and alike so far
    Opened,
}

// The type numbered i is compared with the one that its label names.
fn open_at(
    text: &[u8],
    rows: &[u32],
    marks: &mut [u32],
    labels: &mut [u32],
    x: TypeKey,
    y: TypeKey,
    i: u32,
) -> Round
    requires library { Library text.now rows.now }
    requires i_bound { (i < type_count rows.now) × (pair_words (type_count rows.now) ≤ length marks.old) }
    requires state { State (table_of text.now rows.now) marks.old labels.old x y }
    ensures { Turn (table_of text.now rows.now) (Clean marks.old labels.old i) marks.old marks.new labels.old labels.new x y result }
{
    let root = labels[i as usize];
    if root == i {
        return Round::Settled;
    }
    let p = pair_number(TypeKey(root), TypeKey(i));
    if is_met(marks, p) {
        return Round::Settled;
    }
    set_met(marks, p);
    if identical_impl_o(text, rows, marks, labels, TypeKey(root), TypeKey(i), 0) {
        Round::Opened
    } else {
        Round::Apart
    }
}

// The types are seen to in turn. A pair that is opened may put off pairs of types before it, which are left to the next round.
pub fn open_round(
    text: &[u8],
    rows: &[u32],
    marks: &mut [u32],
    labels: &mut [u32],
    x: TypeKey,
    y: TypeKey,
) -> Round
    requires library { Library text.now rows.now }
    requires rows_in_bounds { pair_words (type_count rows.now) ≤ length marks.old }
    requires state { State (table_of text.now rows.now) marks.old labels.old x y }
    ensures { Turn (table_of text.now rows.now) (AllClean (table_of text.now rows.now) marks.old labels.old) marks.old marks.new labels.old labels.new x y result }
{
    let n = type_count(rows);
    let mut found = Round::Settled;
    for i in 0..n {
        match open_at(text, rows, marks, labels, x, y, i) {
            Round::Apart => return Round::Apart,
            Round::Settled => {}
            Round::Opened => found = Round::Opened,
        }
    }
    found
}
