// All levels: the kept walks whole, for questions about every name.
ghost use Rattle.std.specs.Prelude.{◌*◌, ◌<◌, ◌≤◌, length};
ghost use Rattle.objects.specs.Rows.{table_of, type_count};
ghost use Rattle.rules.specs.Library.{Library};
ghost use Rattle.ways.specs.OfTable.{graph};
ghost use Rattle.multiples.specs.Records.{max_records};
ghost use Rattle.walks.specs.Rows.{kept_rows};
ghost use Rattle.levels.specs.All.{Keeps};

use multiples::EmbeddedType;
use objects::TypeKey;
use walk_rows::lower::lower;
use walk_rows::records::put_root;

// The rows of the kept walks from type t, f true if a pointer was removed to come to it. Answers how many they are.
pub fn walk_all(text: &[u8], rows: &[u32], walk: &mut [EmbeddedType], t: TypeKey, f: bool) -> usize
    requires library { Library text.now rows.now }
    requires t_bound { (t.0 < type_count rows.now) × (2 * type_count rows.now ≤ length walk.old) × (length walk.old ≤ max_records) }
    ensures { Keeps rows.now walk.new result (kept_rows (graph (table_of text.now rows.now)) t f) }
{
    put_root(walk, t, f);
    let mut lo: u32 = 0;
    let mut n: usize = 1;
    // a `while`, since each turn goes on by a whole level
    while (lo as usize) < n {
        let end = lower(text, rows, walk, lo, n);
        lo = n as u32;
        n = end;
    }
    n
}
