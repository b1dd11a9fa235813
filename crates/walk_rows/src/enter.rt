// One row is entered, unless its type has a row of an earlier level or two rows.
ghost use Rattle.std.specs.Prelude.{◌||◌, ◌≡◌, ltb};
ghost use Rattle.walks.specs.Rows.{entered};
ghost use Rattle.walk_rows.specs.Records.{level_of, mark_of, row_meant, rows_of};
ghost use Rattle.walk_rows.specs.State.{Fits, Holds, Rowed};

use crate::records::{put_first, put_second, record_at};
use multiples::EmbeddedType;

// Record i, the first of its type, keeps further rows of a level out: it is of an earlier level, or it is marked.
fn keeps_out(walk: &[EmbeddedType], i: usize, level: u32) -> bool
    ensures { result ≡ ltb (level_of walk.now i) level || mark_of walk.now i }
{
    let r = record_at(walk, i);
    r.level < level || r.multiples == 1
}

// Record e, below the rows before `from`. Answers where the rows now end.
pub fn enter(walk: &mut [EmbeddedType], from: usize, n: usize, e: EmbeddedType) -> usize
    requires { Rowed walk.old n × Fits walk.old from n e }
    ensures { Holds walk.new result (entered (rows_of walk.old n) (row_meant e)) }
{
    let t = e.typ.0 as usize;
    let k = walk[t].first as usize;
    if k == 0 {
        put_first(walk, n, e);
        return n + 1;
    }
    if keeps_out(walk, k - 1, e.level) {
        return n;
    }
    put_second(walk, from, n, k - 1, e);
    n + 1
}
