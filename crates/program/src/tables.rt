// From the input to rows that hold its table.
ghost use Rattle.std.specs.Prelude.{◌≡◌, ◌≤◌, length, replicate};
ghost use Rattle.objects.specs.Bounds.{all_words};
ghost use Rattle.program.specs.Steps.{Opens};

use input::split;
use objects::bounds::MAX_TEXT;
use objects::refusals::{Reason, Refusal};
use table::load;

// Where the table ends and the questions begin, or none if all of the input is the table; or why the input is refused. The rows are clear when it is called.
pub fn open_input(input: &[u8], rows: &mut [u32]) -> Result<Option<(usize, usize)>, Refusal>
    requires { (rows.old ≡ replicate (length rows.old) 0) × (all_words ≤ length rows.old) }
    ensures { Opens input.now result rows.new }
{
    if MAX_TEXT < input.len() {
        return Err(Refusal {
            reason: Reason::TextLong,
            line: 0,
        });
    }
    let Some((end, next)) = split(input) else {
        load(input, rows)?;
        return Ok(None);
    };
    load(&input[0..end], rows)?;
    Ok(Some((end, next)))
}
