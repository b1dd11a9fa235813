// The level below: what the types of a level embed, row by row and field by field.
ghost use Rattle.std.specs.Prelude.{[], ◌∷◌, ◌+◌, ◌-◌, ◌<◌, ◌≤◌};
ghost use Rattle.objects.specs.Bounds.{max_elements};
ghost use Rattle.objects.specs.Lists.{flat};
ghost use Rattle.objects.specs.Rows.{type_count, members_from, member_at, table_of};
ghost use Rattle.objects.specs.Types.{member_type_read};
ghost use Rattle.rules.specs.Library.{Library};
ghost use Rattle.rules.specs.Ways.{places_from};
ghost use Rattle.ways.specs.OfTable.{graph};
ghost use Rattle.walks.specs.Rows.{embeds, range};
ghost use Rattle.walk_rows.specs.Records.{rows_of};
ghost use Rattle.walk_rows.specs.State.{Walked, Enters, LastFrom, Below, FieldsTyped, rows_below};

use crate::Above;
use crate::enter::enter;
use crate::records::record_at;
use multiples::EmbeddedType;
use objects::ObjKey;
use objects::kinds::STRUCT;
use objects::rows::{
    bare, first_member, is_embedded, kind_number, member_total, member_type, pointer_at, under,
};

// Member m, at a place among the fields of a row's type, if it is an embedded field.
fn embed_field(
    text: &[u8],
    rows: &[u32],
    walk: &mut [EmbeddedType],
    n: usize,
    up: Above,
    m: ObjKey,
    place: u32,
) -> usize
    requires library { Library text.now rows.now }
    requires walked { Walked (type_count rows.now) walk.old n × Below walk.old n up × ((member_type_read rows.now m).0 < type_count rows.now) }
    ensures { Enters (type_count rows.now) walk.old n (rows_below (table_of text.now rows.now) up (places_from place (member_at text.now rows.now m ∷ []))) walk.new result }
{
    if !is_embedded(rows, m) {
        return n;
    }
    let t = member_type(rows, m);
    let target = bare(rows, t);
    let below = EmbeddedType {
        typ: target,
        parent: up.row,
        place,
        indirect: u32::from(up.flag || pointer_at(rows, t)),
        multiples: 0,
        key: m,
        level: up.level,
        first: 0,
    };
    enter(walk, up.from, n, below)
}

// So many fields from a first one on.
fn embed_fields(
    text: &[u8],
    rows: &[u32],
    walk: &mut [EmbeddedType],
    n: usize,
    up: Above,
    first: u32,
    total: u32,
) -> usize
    requires library { Library text.now rows.now }
    requires walked { Walked (type_count rows.now) walk.old n × Below walk.old n up × (first + total ≤ max_elements) × FieldsTyped rows.now first total }
    ensures { Enters (type_count rows.now) walk.old n (rows_below (table_of text.now rows.now) up (places_from 0 (members_from text.now rows.now first total))) walk.new result }
{
    let mut end = n;
    for j in 0..total {
        end = embed_field(text, rows, walk, end, up, ObjKey(first + j), j);
    }
    end
}

// What row i's type embeds, a row of the level above the one that begins at `from`.
fn embed(
    text: &[u8],
    rows: &[u32],
    walk: &mut [EmbeddedType],
    from: usize,
    n: usize,
    i: u32,
) -> usize
    requires library { Library text.now rows.now }
    requires walked { Walked (type_count rows.now) walk.old n × (i < from) × (from ≤ n) × LastFrom walk.old i from }
    ensures { Enters (type_count rows.now) walk.old n (embeds (graph (table_of text.now rows.now)) (rows_of walk.old n) i) walk.new result }
{
    let e = record_at(walk, i as usize);
    let u = under(rows, e.typ);
    if kind_number(rows, u) != STRUCT {
        return n;
    }
    let up = Above {
        row: i,
        flag: e.indirect == 1,
        level: e.level + 1,
        from,
    };
    let first = first_member(rows, u);
    let total = member_total(rows, u);
    embed_fields(text, rows, walk, n, up, first, total)
}

// What the types of the level embed, whose rows are those from lo on. Answers where the rows now end.
pub fn lower(text: &[u8], rows: &[u32], walk: &mut [EmbeddedType], lo: u32, n: usize) -> usize
    requires library { Library text.now rows.now }
    requires walked { Walked (type_count rows.now) walk.old n × (lo ≤ n) × LastFrom walk.old lo n }
    ensures { Enters (type_count rows.now) walk.old n (flat (embeds (graph (table_of text.now rows.now)) (rows_of walk.old n)) (range lo (n - lo))) walk.new result }
{
    let mut end = n;
    for i in lo..n as u32 {
        end = embed(text, rows, walk, n, end, i);
    }
    end
}
