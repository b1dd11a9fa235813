// M: the lines of a method set. Their length is counted first, so that the buffer is left as it was where it is too short.
ghost use Rattle.std.specs.Prelude.{◌≡◌, ◌+◌, ◌*◌, ◌≤◌, ◌<◌, length, take};
ghost use Rattle.objects.specs.Bounds.{max_members, max_places};
ghost use Rattle.print.specs.Written.{max_line, Wrote};
ghost use Rattle.rules.specs.Asked.{say};
ghost use Rattle.reply.specs.Done.{Does};
ghost use Rattle.reply.specs.SetLines.{Says, Short, sel_line, sel_lines, set_lines};

use crate::Unsaid;
use first_hits::FirstHit;
use method_set::selection;
use multiples::EmbeddedType;
use objects::bounds::MAX_PLACES;
use print::{line_length, put_line};

// ---- the line of one name

fn sel_length(
    rows: &[u32],
    walk: &[EmbeddedType],
    hits: &[FirstHit],
    k: u32,
    numbers: &mut [u32],
) -> usize
    requires { Says walk.now hits.now k × (max_places + 2 ≤ length numbers.old) }
    ensures { (result ≡ length (sel_line rows.now walk.now hits.now k)) × (result ≤ max_line) }
{
    let n = selection(rows, walk, hits, k, numbers);
    line_length(b"sel", numbers, n)
}

fn put_sel(
    answer: &mut [u8],
    at: usize,
    rows: &[u32],
    walk: &[EmbeddedType],
    hits: &[FirstHit],
    k: u32,
    numbers: &mut [u32],
) -> usize
    requires says { Says walk.now hits.now k × (max_places + 2 ≤ length numbers.old) }
    requires k_in_bounds { at + length (sel_line rows.now walk.now hits.now k) ≤ length answer.old }
    ensures { Wrote answer.old at (sel_line rows.now walk.now hits.now k) answer.new result }
{
    let n = selection(rows, walk, hits, k, numbers);
    put_line(answer, at, b"sel", numbers, n)
}

// ---- the lines of all

fn total_length(
    rows: &[u32],
    walk: &[EmbeddedType],
    hits: &[FirstHit],
    names: &[u32],
    numbers: &mut [u32],
) -> usize
    requires names_le_max_members { (length names.now ≤ max_members) × (max_places + 2 ≤ length numbers.old) }
    requires short { Short walk.now hits.now names.now }
    ensures { (result ≡ length (sel_lines rows.now walk.now hits.now names.now)) × (result ≤ max_members * max_line) }
{
    let mut total: usize = 0;
    for k in names {
        total += sel_length(rows, walk, hits, *k, numbers);
    }
    total
}

fn put_lines(
    answer: &mut [u8],
    at: usize,
    rows: &[u32],
    walk: &[EmbeddedType],
    hits: &[FirstHit],
    names: &[u32],
    numbers: &mut [u32],
) -> usize
    requires names_le_max_members { (length names.now ≤ max_members) × (max_places + 2 ≤ length numbers.old) }
    requires short { Short walk.now hits.now names.now }
    requires names_in_bounds { at + length (sel_lines rows.now walk.now hits.now names.now) ≤ length answer.old }
    ensures { Wrote answer.old at (sel_lines rows.now walk.now hits.now names.now) answer.new result }
{
    let mut end = at;
    for k in names {
        end = put_sel(answer, end, rows, walk, hits, *k, numbers);
    }
    end
}

// `set` and the count, then the lines.
pub fn say_set(
    answer: &mut [u8],
    rows: &[u32],
    walk: &[EmbeddedType],
    hits: &[FirstHit],
    names: &[u32],
    n: usize,
) -> Result<usize, Unsaid>
    requires n_le_max_members { (n ≤ max_members) × (n ≤ length names.now) }
    requires short { Short walk.now hits.now (take n names.now) }
    ensures { Does (say (set_lines rows.now walk.now hits.now (take n names.now))) result answer.old answer.new }
{
    let set = &names[..n];
    let mut numbers = [0u32; MAX_PLACES + 2];
    let count = [set.len() as u32];
    let head = line_length(b"set", &count, 1);
    let rest = total_length(rows, walk, hits, set, &mut numbers);
    let size = head + rest;
    if answer.len() < size {
        return Err(Unsaid::Long(size));
    }
    let at = put_line(answer, 0, b"set", &count, 1);
    let end = put_lines(answer, at, rows, walk, hits, set, &mut numbers);
    Ok(end)
}
