// The rows of kept walks in lent records (specs/Records.antt).
ghost use Rattle.std.specs.Prelude.{◌≡◌, false, [], ◌∷◌, ◌++◌, suc, ◌+◌, ◌<◌, ◌≤◌, length};
ghost use Rattle.multiples.specs.Records.{max_records};
ghost use Rattle.walks.specs.Rows.{root_row};
ghost use Rattle.walk_rows.specs.Records.{record_at, row_meant, rows_of, mark_of, first_of, record_put};
ghost use Rattle.walk_rows.specs.State.{HasRoom, Empty, Rowed, Fits, Holds};

use multiples::{EmbeddedType, consolidate_multiples};
use objects::TypeKey;

// Record i; one that is not there reads as an empty one.
pub fn record_at(walk: &[EmbeddedType], i: usize) -> EmbeddedType
    ensures { result ≡ record_at walk.now i }
{
    match walk.get(i) {
        Some(r) => *r,
        None => EmbeddedType::EMPTY,
    }
}

// No type has a row.
fn clear_firsts(walk: &mut [EmbeddedType])
    requires { length walk.old ≤ max_records }
    ensures { (length walk.new ≡ length walk.old) × Empty walk.new }
{
    for i in 0..walk.len() / 2 {
        walk[i].first = 0;
    }
}

// Record n.
fn put_record(walk: &mut [EmbeddedType], n: usize, e: EmbeddedType)
    requires { (n < length walk.old) × (length walk.old ≤ max_records) }
    ensures { walk.new ≡ record_put walk.old n e }
{
    let first = walk[n].first;
    walk[n] = EmbeddedType { first, ..e };
}

// Row n, the first of its type.
pub fn put_first(walk: &mut [EmbeddedType], n: usize, e: EmbeddedType)
    requires { Rowed walk.old n × Fits walk.old 0 n e × (first_of walk.old e.typ ≡ 0) }
    ensures { Holds walk.new (n + 1) (rows_of walk.old n ++ (row_meant e ∷ [])) }
{
    put_record(walk, n, e);
    let t = e.typ.0 as usize;
    walk[t].first = (n + 1) as u32;
}

// Row n, the second of its type, whose first is row i of the level that begins at `from`: that is marked.
pub fn put_second(walk: &mut [EmbeddedType], from: usize, n: usize, i: usize, e: EmbeddedType)
    requires rowed { Rowed walk.old n × Fits walk.old from n e }
    requires first_unmarked { (first_of walk.old e.typ ≡ suc i) × (mark_of walk.old i ≡ false) × (from ≤ i) }
    ensures { Holds walk.new (n + 1) (rows_of walk.old n ++ (row_meant e ∷ [])) }
{
    consolidate_multiples(&mut walk[from..n], e.typ);
    put_record(walk, n, e);
}

// The row of the type that the walks start at is the only one.
pub fn put_root(walk: &mut [EmbeddedType], t: TypeKey, f: bool)
    requires { (length walk.old ≤ max_records) × HasRoom walk.old t }
    ensures { (length walk.new ≡ length walk.old) × Holds walk.new 1 (root_row t f ∷ []) }
{
    clear_firsts(walk);
    let root = EmbeddedType {
        typ: t,
        indirect: u32::from(f),
        ..EmbeddedType::EMPTY
    };
    put_first(walk, 0, root);
}
