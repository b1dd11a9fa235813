// The questions, one function for each letter, on scratch that is lent. What it held before plays no part, and it may be lent again.
ghost use Rattle.std.specs.Prelude.{◌≡◌, true, ◌≤◌, ◌<◌, length, drop, replicate};
ghost use Rattle.objects.specs.Bounds.{mark_words};
ghost use Rattle.objects.specs.Table.{has_package};
ghost use Rattle.objects.specs.Rows.{type_count, package_meant, bytes_at, table_of};
ghost use Rattle.rules.specs.Library.{Library};
ghost use Rattle.rules.specs.Question.{ask_s, ask_m, ask_n, ask_i, ask_c, ask_v};
ghost use Rattle.rules.specs.Ways.{select};
ghost use Rattle.selection.specs.Results.{Selects, name_meant};
ghost use Rattle.levels.specs.Hits.{Scratch};
ghost use Rattle.first_hits.specs.Hits.{Rooms};
ghost use Rattle.reply.specs.Done.{Does, due};
ghost use Rattle.answer.specs.Lent.{Searches, Lists};

use first_hits::FirstHit;
use lookup::lookup_field_or_method;
use lookup::missing::missing_method;
use multiples::EmbeddedType;
use objects::TypeKey;
use reply::Unsaid;
use reply::one_line::{say_counts, say_missing, say_truth};
use reply::selected::say_selected;
use reply::set_lines::say_set;
use selection::{Name, Selection};
use typ::comparable::comparable;
use typ::identical::identical;

// What S is asked of: an operand of the type, addressable or not.
#[derive(Clone, Copy)]
pub struct Operand {
    pub typ: TypeKey,
    pub addressable: bool,
}

// What N is asked of: the type, the interface, and whether absent methods count where an interface lies under the type too.
#[derive(Clone, Copy)]
pub struct Implements {
    pub typ: TypeKey,
    pub iface: TypeKey,
    pub statically: bool,
}

// S, with the places behind two words that are left free.
fn select_behind(
    text: &[u8],
    rows: &[u32],
    walk: &mut [EmbeddedType],
    numbers: &mut [u32],
    names: &[u8],
    q: Name,
    t: TypeKey,
    a: bool,
) -> Selection
    requires library { Library text.now rows.now }
    requires t_bound { (t.0 < type_count rows.now) × (has_package (table_of text.now rows.now) (package_meant q.pkg) ≡ true) × Scratch rows.now walk.old (drop 2 numbers.old) }
    ensures { Selects text.now rows.now result (drop 2 numbers.new) (select (table_of text.now rows.now) (name_meant text.now rows.now names.now q) t a) }
{
    lookup_field_or_method(text, rows, walk, &mut numbers[2..], names, q, t, a)
}

pub fn ask_s(
    text: &[u8],
    rows: &[u32],
    walk: &mut [EmbeddedType],
    words: &mut [u32],
    line: &[u8],
    answer: &mut [u8],
    q: Name,
    x: Operand,
) -> Result<usize, Unsaid>
    requires library { Library text.now rows.now }
    requires typ_bound { (x.typ.0 < type_count rows.now) × (has_package (table_of text.now rows.now) (package_meant q.pkg) ≡ true) × Searches rows.now walk.old words.old }
    ensures { Does (due (table_of text.now rows.now) (ask_s x.typ x.addressable (package_meant q.pkg) (bytes_at line.now q.at q.len))) result answer.old answer.new }
{
    let t = x.typ;
    let s = select_behind(text, rows, walk, words, line, q, t, x.addressable);
    say_selected(answer, s, words)
}

pub fn ask_m(
    text: &[u8],
    rows: &[u32],
    walk: &mut [EmbeddedType],
    hits: &mut [FirstHit],
    words: &mut [u32],
    answer: &mut [u8],
    t: TypeKey,
) -> Result<usize, Unsaid>
    requires library { Library text.now rows.now }
    requires t_bound { (t.0 < type_count rows.now) × Lists rows.now walk.old hits.old words.old }
    ensures does { Does (due (table_of text.now rows.now) (ask_m t)) result answer.old answer.new }
    ensures rooms { Rooms rows.now hits.new }
{
    let n = method_set::new(text, rows, t, walk, words, hits);
    say_set(answer, rows, walk, hits, words, n)
}

pub fn ask_n(
    text: &[u8],
    rows: &[u32],
    marks: &mut [u32],
    walk: &mut [EmbeddedType],
    words: &mut [u32],
    answer: &mut [u8],
    x: Implements,
) -> Result<usize, Unsaid>
    requires library { Library text.now rows.now }
    requires typ_bound { (x.typ.0 < type_count rows.now) × (x.iface.0 < type_count rows.now) × (mark_words ≤ length marks.old) × Searches rows.now walk.old words.old }
    requires marks_value { marks.old ≡ replicate (length marks.old) 0 }
    ensures does { Does (due (table_of text.now rows.now) (ask_n x.typ x.iface x.statically)) result answer.old answer.new }
    ensures marks_unchanged { marks.new ≡ marks.old }
{
    let t = x.typ;
    let i = x.iface;
    let m = missing_method(text, rows, marks, walk, words, t, i, x.statically);
    say_missing(answer, m)
}

pub fn ask_i(
    text: &[u8],
    rows: &[u32],
    marks: &mut [u32],
    answer: &mut [u8],
    x: TypeKey,
    y: TypeKey,
) -> Result<usize, Unsaid>
    requires library { Library text.now rows.now }
    requires x_bound { (x.0 < type_count rows.now) × (y.0 < type_count rows.now) × (mark_words ≤ length marks.old) }
    requires marks_value { marks.old ≡ replicate (length marks.old) 0 }
    ensures does { Does (due (table_of text.now rows.now) (ask_i x y)) result answer.old answer.new }
    ensures marks_unchanged { marks.new ≡ marks.old }
{
    let b = identical(text, rows, marks, x, y);
    say_truth(answer, b)
}

pub fn ask_c(
    text: &[u8],
    rows: &[u32],
    marks: &mut [u32],
    answer: &mut [u8],
    t: TypeKey,
) -> Result<usize, Unsaid>
    requires library { Library text.now rows.now }
    requires t_bound { (t.0 < type_count rows.now) × (mark_words ≤ length marks.old) }
    requires marks_value { marks.old ≡ replicate (length marks.old) 0 }
    ensures does { Does (due (table_of text.now rows.now) (ask_c t)) result answer.old answer.new }
    ensures marks_unchanged { marks.new ≡ marks.old }
{
    let b = comparable(text, rows, marks, t);
    say_truth(answer, b)
}

pub fn ask_v(text: &[u8], rows: &[u32], answer: &mut [u8]) -> Result<usize, Unsaid>
    ensures { Does (due (table_of text.now rows.now) ask_v) result answer.old answer.new }
{
    say_counts(answer, rows)
}
