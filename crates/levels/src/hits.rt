// The rows of a level whose type has the name.
ghost use Rattle.std.specs.Prelude.{◌≡◌, true, ◌≤◌};
ghost use Rattle.objects.specs.Table.{has_package};
ghost use Rattle.objects.specs.Rows.{package_meant, table_of, type_count};
ghost use Rattle.rules.specs.Library.{Library};
ghost use Rattle.selection.specs.Results.{name_meant};
ghost use Rattle.walk_rows.specs.State.{Walked};
ghost use Rattle.levels.specs.Hits.{Tells};

use crate::Found;
use multiples::EmbeddedType;
use selection::{Name, own_member};
use walk_rows::records::record_at;

// The first of the rows from lo on, up to n.
pub fn next_hit(
    text: &[u8],
    rows: &[u32],
    walk: &[EmbeddedType],
    names: &[u8],
    q: Name,
    lo: u32,
    n: usize,
) -> Option<Found>
    requires library { Library text.now rows.now }
    requires walked { Walked (type_count rows.now) walk.now n × (lo ≤ n) × (has_package (table_of text.now rows.now) (package_meant q.pkg) ≡ true) }
    ensures { Tells text.now rows.now (name_meant text.now rows.now names.now q) walk.now n lo result }
{
    for row in lo..n as u32 {
        let e = record_at(walk, row as usize);
        if let Some(own) = own_member(text, rows, e.typ, names, q) {
            return Some(Found {
                row,
                place: own.place,
                member: own.member,
            });
        }
    }
    None
}
