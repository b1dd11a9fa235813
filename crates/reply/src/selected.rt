// S: the line of a selection, or the two lines of an ambiguous one.
ghost use Rattle.std.specs.Prelude.{◌≡◌, ◌++◌, ◌+◌, ◌*◌, ◌≤◌, length, take, drop};
ghost use Rattle.objects.specs.Bounds.{max_places};
ghost use Rattle.objects.specs.Lists.{Bytes};
ghost use Rattle.objects.specs.Rows.{Words};
ghost use Rattle.text.specs.Bytes.{ascii};
ghost use Rattle.print.specs.Written.{number_line};
ghost use Rattle.rules.specs.Answer.{selected, answer_bytes};
ghost use Rattle.rules.specs.Asked.{say};
ghost use Rattle.selection.specs.Results.{key_of, result_meant, second_of};
ghost use Rattle.reply.specs.Done.{Does};

use crate::Unsaid;
use crate::one_line::{say, say_word};
use objects::bounds::MAX_PLACES;
use print::{line_length, put_line};
use selection::{Entity, LookupResult, Selection};

// The number of a member, whatever it is.
#[tactic(auto, unfolding(selection::specs::Results::key_of))]
fn number_of(e: Entity) -> u32
    ensures { result ≡ (key_of e).0 }
{
    match e {
        Entity::Method(m) | Entity::Field(m) => m.0,
    }
}

// The places of two ways, n each: "a second line, `and`, carries the next one".
fn say_both(answer: &mut [u8], first: &[u32], second: &[u32], n: usize) -> Result<usize, Unsaid>
    requires { (n ≤ max_places) × (n ≤ length first.now) × (n ≤ length second.now) }
    ensures { Does (say (number_line (ascii "ambiguous") (take n first.now) ++ number_line (ascii "and") (take n second.now))) result answer.old answer.new }
{
    let head = line_length(b"ambiguous", first, n);
    let rest = line_length(b"and", second, n);
    let size = head + rest;
    if answer.len() < size {
        return Err(Unsaid::Long(size));
    }
    let at = put_line(answer, 0, b"ambiguous", first, n);
    let end = put_line(answer, at, b"and", second, n);
    Ok(end)
}

// The places of the ways stand behind two words that are free for the member and the flag.
pub fn say_selected(answer: &mut [u8], s: Selection, numbers: &mut [u32]) -> Result<usize, Unsaid>
    requires { (s.count ≤ max_places) × (2 + 2 * max_places ≤ length numbers.old) }
    ensures { (text : Bytes) (rows : Words) → Does (say (answer_bytes (selected (result_meant text rows s.result (take s.count (drop 2 numbers.old)) (take s.count (second_of (drop 2 numbers.old))))))) result answer.old answer.new }
{
    let count = s.count;
    let result = s.result;
    match result {
        LookupResult::Entry(e, flag) => {
            numbers[0] = number_of(e);
            numbers[1] = u32::from(flag);
            say(answer, b"entry", numbers, count + 2)
        }
        LookupResult::Ambiguous => {
            let all = &numbers[..];
            say_both(answer, &all[2..], &all[2 + MAX_PLACES..], count)
        }
        LookupResult::BadMethodReceiver => say_word(answer, b"badreceiver"),
        LookupResult::NotFound => say_word(answer, b"notfound"),
    }
}
