// The text of the tidied table, written from the rows of the table: the types that are their own twins, with references by the new numbers.
ghost use Rattle.std.specs.Prelude.{◌≡◌, ◌+◌, ◌<◌, ◌≤◌, length};
ghost use Rattle.objects.specs.Bounds.{word_values};
ghost use Rattle.objects.specs.Rows.{type_count, table_of};
ghost use Rattle.objects.specs.Types.{first_read, total_read};
ghost use Rattle.rules.specs.Library.{Library};
ghost use Rattle.print.specs.Written.{Wrote};
ghost use Rattle.edits.specs.Tidy.{tidied};
ghost use Rattle.table_text.specs.Rows.{Small};
ghost use Rattle.edits.specs.TableText.{text_of};
ghost use Rattle.twins.specs.Labels.{Twinned};
ghost use Rattle.tidy.specs.Numbers.{Renumbered};
ghost use Rattle.tidy.specs.Text.{own_text, remaining_text};

use objects::TypeKey;
use objects::rows::type_count;
use print::put_word;
use table_text::pieces::put_pieces;
use table_text::{put_packages, put_type};

// The lines of a type that is its own twin; nothing of another.
fn put_own(
    out: &mut [u8],
    at: usize,
    text: &[u8],
    rows: &[u32],
    twins: &[u32],
    numbers: &[u32],
    t: TypeKey,
) -> usize
    requires { (t.0 < length twins.now) × (first_read rows.now t + total_read rows.now t < word_values) × (at + length (own_text text.now rows.now twins.now numbers.now t) ≤ length out.old) }
    ensures { Wrote out.old at (own_text text.now rows.now twins.now numbers.now t) out.new result }
{
    if twins[t.0 as usize] != t.0 {
        return at;
    }
    put_type(out, at, text, rows, numbers, t)
}

// The lines of all types that remain.
fn put_remaining(
    out: &mut [u8],
    at: usize,
    text: &[u8],
    rows: &[u32],
    twins: &[u32],
    numbers: &[u32],
) -> usize
    requires { Small rows.now × (type_count rows.now ≤ length twins.now) × (at + length (remaining_text text.now rows.now twins.now numbers.now) ≤ length out.old) }
    ensures { Wrote out.old at (remaining_text text.now rows.now twins.now numbers.now) out.new result }
{
    put_pieces(out, at, 0, type_count(rows), |o, i, j| {
        put_own(o, i, text, rows, twins, numbers, TypeKey(j))
    })
}

// THE TEXT OF THE TIDIED TABLE.
pub fn put_tidied(
    out: &mut [u8],
    at: usize,
    text: &[u8],
    rows: &[u32],
    twins: &[u32],
    numbers: &[u32],
) -> usize
    requires library { Library text.now rows.now }
    requires twinned { Twinned text.now rows.now twins.now × Renumbered text.now rows.now numbers.now }
    requires rows_in_bounds { (type_count rows.now ≤ length twins.now) × (type_count rows.now ≤ length numbers.now) }
    requires rows_in_bounds_2 { at + length (text_of (tidied (table_of text.now rows.now))) ≤ length out.old }
    ensures { Wrote out.old at (text_of (tidied (table_of text.now rows.now))) out.new result }
{
    let i = put_word(out, at, b"typetable\t1\n");
    let j = put_packages(out, i, text, rows);
    put_remaining(out, j, text, rows, twins, numbers)
}
