// When two types stay together in a round.
ghost use Rattle.std.specs.Prelude.{◌≡◌, ◌<◌, ◌≤◌, length};
ghost use Rattle.objects.specs.Rows.{type_count, table_of};
ghost use Rattle.objects.specs.Table.{kind_at};
ghost use Rattle.rules.specs.Library.{Library};
ghost use Rattle.rules.specs.Identity.{parts};
ghost use Rattle.rules.specs.StepIdentity.{pairwise};
ghost use Rattle.type_parts.specs.Parts.{Peers};
ghost use Rattle.twins.specs.Labels.{same_label, agrees};

use objects::TypeKey;
use objects::rows::{first_member, type_word};
use type_parts::parts::{mismatch, part_count, part_in};

// The parts of x and y at the same places have one label each.
fn same_parts(text: &[u8], rows: &[u32], labels: &[u32], x: TypeKey, y: TypeKey) -> bool
    requires library { Library text.now rows.now }
    requires peers { Peers (table_of text.now rows.now) x y × (type_count rows.now ≤ length labels.now) }
    ensures { result ≡ pairwise (same_label labels.now) (parts (kind_at (table_of text.now rows.now) x)) (parts (kind_at (table_of text.now rows.now) y)) }
{
    let n = part_count(rows, x);
    let j = type_word(rows, x, 0);
    let k = type_word(rows, y, 0);
    let first = first_member(rows, x);
    let second = first_member(rows, y);
    for i in 0..n {
        let p = part_in(rows, x, j, first, i);
        let q = part_in(rows, y, k, second, i);
        if labels[p.0 as usize] != labels[q.0 as usize] {
            return false;
        }
    }
    true
}

// Types x and y have one label, nothing at hand tells them apart, and their parts have one label each.
pub fn agree(text: &[u8], rows: &[u32], labels: &[u32], x: TypeKey, y: TypeKey) -> bool
    requires library { Library text.now rows.now }
    requires x_bound { (x.0 < type_count rows.now) × (y.0 < type_count rows.now) × (type_count rows.now ≤ length labels.now) }
    ensures { result ≡ agrees (table_of text.now rows.now) labels.now x y }
{
    labels[x.0 as usize] == labels[y.0 as usize]
        && !mismatch(text, rows, x, y)
        && same_parts(text, rows, labels, x, y)
}
