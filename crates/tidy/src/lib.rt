// The tidy writer: a loaded table written out again with only the least-numbered type of each set of identical types (document 02, point 6). The definitions are
// those of crate edits, specs/Tidy.antt and specs/TableText.antt; what is promised of the text is in proofs/Texts.antt.
#![tactic(auto)]

ghost use Rattle.std.specs.Prelude.{◌≡◌, ◌≤◌, length};
ghost use Rattle.objects.specs.Bounds.{max_text};
ghost use Rattle.objects.specs.Rows.{type_count, table_of};
ghost use Rattle.rules.specs.Library.{Library};
ghost use Rattle.edits.specs.Tidying.{says_tidied};
ghost use Rattle.reply.specs.Done.{Does};
ghost use Rattle.twins.specs.Labels.{Twinned};
ghost use Rattle.tidy.specs.Numbers.{Renumbered};

use crate::numbers::new_numbers;
use crate::writer::put_tidied;
use objects::bounds::{MAX_TEXT, MAX_TYPES};
use objects::rows::type_count;
use print::put_word;
use reply::Unsaid;
use twins::least_twins;

pub mod numbers; // the new number of each type
pub mod writer; // the text of the tidied table

// The text stands in front of the output, or is too long for it. It is written aside first: it is no longer than the text that was loaded, so that there is room
// for it.
fn say_aside(
    aside: &mut [u8],
    text: &[u8],
    rows: &[u32],
    twins: &[u32],
    numbers: &[u32],
    output: &mut [u8],
) -> Result<usize, Unsaid>
    requires library { Library text.now rows.now }
    requires twinned { Twinned text.now rows.now twins.now × Renumbered text.now rows.now numbers.now }
    requires rows_in_bounds { (type_count rows.now ≤ length twins.now) × (type_count rows.now ≤ length numbers.now) }
    requires max_text_in_bounds { max_text ≤ length aside.old }
    ensures { Does (says_tidied (table_of text.now rows.now)) result output.old output.new }
{
    let n = put_tidied(aside, 0, text, rows, twins, numbers);
    if output.len() < n {
        return Err(Unsaid::Long(n));
    }
    let end = put_word(output, 0, &aside[0..n]);
    Ok(end)
}

// The same with bytes of its own: as many as a text may have.
fn say_short(
    text: &[u8],
    rows: &[u32],
    twins: &[u32],
    numbers: &[u32],
    output: &mut [u8],
) -> Result<usize, Unsaid>
    requires library { Library text.now rows.now }
    requires twinned { Twinned text.now rows.now twins.now × Renumbered text.now rows.now numbers.now }
    requires rows_in_bounds { (type_count rows.now ≤ length twins.now) × (type_count rows.now ≤ length numbers.now) }
    ensures { Does (says_tidied (table_of text.now rows.now)) result output.old output.new }
{
    let mut aside = [0u8; MAX_TEXT];
    say_aside(&mut aside, text, rows, twins, numbers, output)
}

// The same, written at once into an output that is as long as the text that was loaded.
fn say_tidied(
    text: &[u8],
    rows: &[u32],
    twins: &[u32],
    numbers: &[u32],
    output: &mut [u8],
) -> Result<usize, Unsaid>
    requires library { Library text.now rows.now }
    requires twinned { Twinned text.now rows.now twins.now × Renumbered text.now rows.now numbers.now }
    requires rows_in_bounds { (type_count rows.now ≤ length twins.now) × (type_count rows.now ≤ length numbers.now) }
    ensures { Does (says_tidied (table_of text.now rows.now)) result output.old output.new }
{
    if output.len() < text.len() {
        return say_short(text, rows, twins, numbers, output);
    }
    let n = put_tidied(output, 0, text, rows, twins, numbers);
    Ok(n)
}

// THE TABLE WRITTEN OUT TIDY.
pub fn tidy(text: &[u8], rows: &[u32], output: &mut [u8]) -> Result<usize, Unsaid>
    requires { Library text.now rows.now }
    ensures { Does (says_tidied (table_of text.now rows.now)) result output.old output.new }
{
    let mut twins = [0u32; MAX_TYPES];
    let mut numbers = [0u32; MAX_TYPES];
    least_twins(text, rows, &mut twins);
    let count = type_count(rows);
    new_numbers(&twins, &mut numbers, count);
    say_tidied(text, rows, &twins, &numbers, output)
}
