// The loader: a text becomes rows, or is refused by 2 to 10 or 14 with its line. Each stage is a crate of its own; here they are put in order.
#![tactic(auto)]

ghost use Rattle.std.specs.Prelude.{◌≡◌, ◌≤◌, length, replicate};
ghost use Rattle.objects.specs.Bounds.{room_for};
ghost use Rattle.objects.specs.Rows.{table_of};
ghost use Rattle.objects.specs.Laid.{Laid};
ghost use Rattle.rules.specs.Load.{checked};
ghost use Rattle.table.specs.Loading.{stage_answer, Passes, Loads};

use objects::refusals::{Reason, Refusal};
use objects::writers::put_signed;

// A stage passes if it found no line.
fn passed(reason: Reason, found: Option<u32>) -> Result<(), Refusal>
    ensures { result ≡ stage_answer reason found }
{
    match found {
        Some(line) => Err(Refusal { reason, line }),
        None => Ok(()),
    }
}

// 14, then 7 to 10, each over the whole text before the next. A table that passes them has no signs yet.
fn check(text: &[u8], rows: &mut [u32]) -> Result<(), Refusal>
    requires { Laid rows.old }
    ensures { Passes text.now (checked (table_of text.now rows.old)) result rows.new }
{
    passed(Reason::PackageOrder, packages::unordered(text, rows))?;
    passed(Reason::Lacking, references::lacking(rows))?;
    passed(Reason::Forbidden, references::forbidden(rows))?;
    passed(Reason::Clash, clashes::clashing(text, rows))?;
    passed(Reason::Containing, cycles::containing(rows))?;
    put_signed(rows, 0);
    Ok(())
}

// 2 to 10, and 14. The rows are clear when it is called.
pub fn load(text: &[u8], rows: &mut [u32]) -> Result<(), Refusal>
    requires { (rows.old ≡ replicate (length rows.old) 0) × (room_for (length text.now) ≤ length rows.old) }
    ensures { Loads text.now result rows.new }
{
    lines::reading::read(text, rows)?;
    check(text, rows)
}
