// A table loaded into rows of the call's own and written out tidy.
ghost use Rattle.std.specs.Prelude.{◌≡◌, ◌≤◌, length, replicate};
ghost use Rattle.objects.specs.Bounds.{all_words, room_for};
ghost use Rattle.rules.specs.Asked.{on_table};
ghost use Rattle.rules.specs.Load.{load};
ghost use Rattle.edits.specs.Tidying.{says_tidied};
ghost use Rattle.replies.specs.Replies.{Ends};

use reply::Unsaid;
use table::load;
use tidy::tidy;

// The table's refusal, or the text, or its length if the output is too short for it. The rows are clear, and have room for the table.
fn tidy_in(table: &[u8], rows: &mut [u32], output: &mut [u8]) -> Result<usize, Unsaid>
    requires { (rows.old ≡ replicate (length rows.old) 0) × (room_for (length table.now) ≤ length rows.old) }
    ensures { Ends (on_table says_tidied (load table.now)) result output.old output.new }
{
    load(table, rows)?;
    tidy(table, rows, output)
}

// The same with rows of its own, as many words as the length of the table needs.
pub fn tidy_with<const WORDS: usize>(table: &[u8], output: &mut [u8]) -> Result<usize, Unsaid>
    requires { (room_for (length table.now) ≤ WORDS) × (WORDS ≤ all_words) }
    ensures { Ends (on_table says_tidied (load table.now)) result output.old output.new }
{
    let mut rows = [0u32; WORDS];
    tidy_in(table, &mut rows, output)
}
