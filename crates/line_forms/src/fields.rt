// The fields of a line, of a table or a question, as words of 32 bits.
ghost use Rattle.std.specs.Prelude.{◌≡◌, ◌≤◌, length};
ghost use Rattle.objects.specs.Bounds.{max_text};
ghost use Rattle.text.specs.Cursors.{fields_left, part_read};
ghost use Rattle.text.specs.Runs.{Exact};
ghost use Rattle.line_forms.specs.Steps.{numbered, packaged, method_named, typed_rest};
ghost use Rattle.line_forms.specs.Forms.{small_read, piece_read, packaged_read, typed_read};

use crate::{Piece, Typed};
use objects::PackageKey;
use objects::bounds::MAX_REFERENCE;
use text::{Cursor, Part};

// A number of 32 bits, and the cursor behind it.
pub fn small(s: &[u8], c: Cursor, max: u32) -> Option<(u32, Cursor)>
    ensures { small_read s.now result ≡ numbered max (fields_left s.now c) }
{
    let (v, d) = c.number(s, u64::from(max))?;
    Some((v as u32, d))
}

// A part that was read, by its place and its length.
pub fn placed(s: &[u8], p: Option<Part>) -> Option<Piece>
    requires { (length s.now ≤ max_text) × Exact s.now p }
    ensures { piece_read s.now result ≡ part_read s.now p }
{
    let p = p?;
    if p.from < p.to {
        Some(Piece {
            at: p.from as u32,
            len: (p.to - p.from) as u32,
            rest: p.rest,
        })
    } else {
        Some(Piece {
            at: 0,
            len: 0,
            rest: p.rest,
        })
    }
}

// "pkg is a number or `-` for none", whether or not the table has the number.
pub fn package(s: &[u8], c: Cursor) -> Option<(Option<PackageKey>, Cursor)>
    ensures { packaged_read s.now result ≡ packaged (fields_left s.now c) }
{
    if let Some(d) = c.word(s, b"-") {
        return Some((None, d));
    }
    let (v, d) = c.number(s, u64::from(MAX_REFERENCE))?;
    Some((Some(PackageKey(v as u32)), d))
}

// "a method is never `_`"
pub fn method_name(s: &[u8], c: Cursor) -> Option<Piece>
    requires { length s.now ≤ max_text }
    ensures { piece_read s.now result ≡ method_named (fields_left s.now c) }
{
    let p = c.name(s)?;
    if text::scan::blank(s, p.from, p.to) {
        None
    } else {
        placed(s, Some(p))
    }
}

pub fn typed(s: &[u8], c: Cursor) -> Option<Typed>
    ensures { typed_read s.now result ≡ typed_rest (fields_left s.now c) }
{
    let (pkg, d) = package(s, c)?;
    let (t, e) = small(s, d, MAX_REFERENCE)?;
    let (bit, rest) = small(s, e, 1)?;
    Some(Typed { pkg, t, bit, rest })
}
