// The parts of a line of a table: the word of a kind, numbers, and bytes of the table's text.
ghost use Rattle.std.specs.Prelude.{◌≡◌, [], ◌∷◌, ◌+◌, ◌≤◌, length, get_or};
ghost use Rattle.objects.specs.Rows.{bytes_at};
ghost use Rattle.text.specs.Bytes.{decimal};
ghost use Rattle.print.specs.Written.{Wrote};
ghost use Rattle.table_text.specs.Rows.{carried_number, kind_word, word_starts, number_counts, first_number, form_letter, form_flag, form_tag, package_field};

use objects::kinds::{CHAN, FUNC, SLICE};
use print::{put_field, put_word};
use text::compare::span;

// Bytes of s from a place on, or as many as there are: names, paths and tags stand in the table's text.
pub fn put_part(out: &mut [u8], at: usize, s: &[u8], from: usize, count: usize) -> usize
    requires { at + length (bytes_at s.now from count) ≤ length out.old }
    ensures { Wrote out.old at (bytes_at s.now from count) out.new result }
{
    put_word(out, at, span(s, from, count))
}

// How many numbers stand on the T line of kind k.
pub fn number_count(k: u32) -> usize
    requires { k ≤ 10 }
    ensures { result ≡ get_or number_counts k 0 }
{
    let counts = [1, 2, 1, 1, 2, 2, 0, 3, 0, 0, 1];
    counts[k as usize]
}

// `T` and the word of kind k.
fn kind_word(k: u32) -> &'static [u8]
    requires { k ≤ 10 }
    ensures { result.now ≡ kind_word k }
{
    match k {
        0 => b"T\tbasic",
        1 => b"T\tarray",
        2 => b"T\tslice",
        3 => b"T\tpointer",
        4 => b"T\tmap",
        5 => b"T\tchan",
        6 => b"T\ttuple",
        7 => b"T\tfunc",
        8 => b"T\tstruct",
        9 => b"T\tiface",
        _ => b"T\tnamed",
    }
}

// The same, written.
pub fn put_kind(out: &mut [u8], at: usize, k: u32) -> usize
    requires { (k ≤ 10) × (at + length (kind_word k) ≤ length out.old) }
    ensures { Wrote out.old at (kind_word k) out.new result }
{
    put_word(out, at, kind_word(k))
}

// The number of type n by the lent numbers; one that they do not reach keeps its own.
pub fn carried(numbers: &[u32], n: u32) -> u32
    ensures { result ≡ carried_number numbers.now n }
{
    let at = n as usize;
    if at < numbers.len() { numbers[at] } else { n }
}

// The first number of a T line of kind k, whose word in the row is a. The kinds before slice, basic and array, have a number there that is no type.
#[tactic(auto, unfolding(crate::specs::Rows::first_number))]
pub fn first_number(numbers: &[u32], k: u32, a: u32) -> u32
    ensures { result ≡ first_number numbers.now k a }
{
    match k {
        CHAN => a.min(2),
        FUNC => u32::from(a == 1),
        _ if k < SLICE => a,
        _ => carried(numbers, a),
    }
}

// The newline.
pub fn put_end(out: &mut [u8], at: usize) -> usize
    requires { at + 1 ≤ length out.old }
    ensures { Wrote out.old at (10 ∷ []) out.new result }
{
    out[at] = 10;
    at + 1
}

// `F` or `M`, and a tab.
#[tactic(auto, unfolding(crate::specs::Rows::form_letter))]
pub fn put_letter(out: &mut [u8], at: usize, form: u32) -> usize
    requires { at + length (form_letter form) ≤ length out.old }
    ensures { Wrote out.old at (form_letter form) out.new result }
{
    put_word(out, at, if 1 < form { b"M\t" } else { b"F\t" })
}

// A tab and a package, given as a member's row has it: by its number and one, 0 for none.
pub fn put_package(out: &mut [u8], at: usize, n: u32) -> usize
    requires { at + length (package_field n) ≤ length out.old }
    ensures { Wrote out.old at (package_field n) out.new result }
{
    if n == 0 {
        return put_word(out, at, b"\t-");
    }
    put_field(out, at, n - 1)
}

// 1 for an embedded field and for a pointer receiver.
#[tactic(auto, unfolding(crate::specs::Rows::form_flag))]
pub fn form_flag(form: u32) -> u32
    ensures { result ≡ form_flag form }
{
    u32::from(form == 1 || 2 < form)
}

// A tab and the tag of a field, if it has one.
pub fn put_tag(
    out: &mut [u8],
    at: usize,
    text: &[u8],
    form: u32,
    from: usize,
    count: usize,
) -> usize
    requires { at + length (form_tag form (bytes_at text.now from count)) ≤ length out.old }
    ensures { Wrote out.old at (form_tag form (bytes_at text.now from count)) out.new result }
{
    let tag = span(text, from, count);
    if 1 < form || tag.is_empty() {
        return at;
    }
    out[at] = 9;
    put_word(out, at + 1, tag)
}
