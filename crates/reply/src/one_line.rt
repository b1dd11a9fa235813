// Answers of one line: a word and numbers, or their length if the buffer is too short.
ghost use Rattle.std.specs.Prelude.{◌≡◌, [], ◌≤◌, length, take};
ghost use Rattle.objects.specs.Lists.{Bytes};
ghost use Rattle.objects.specs.Rows.{Words, package_count, type_count, member_count_of};
ghost use Rattle.print.specs.Written.{max_word, max_fields, number_line};
ghost use Rattle.rules.specs.Answer.{lack_answer, says, counts, answer_bytes};
ghost use Rattle.rules.specs.Asked.{say};
ghost use Rattle.rules.specs.AskedAll.{refused_bytes};
ghost use Rattle.selection.specs.Results.{missing_meant};
ghost use Rattle.reply.specs.Done.{Does};

use crate::Unsaid;
use objects::rows::{member_count, package_count, type_count};
use print::{line_length, put_line};
use selection::Missing;

// The word and the first n numbers.
pub fn say(answer: &mut [u8], word: &[u8], ns: &[u32], n: usize) -> Result<usize, Unsaid>
    requires { (length word.now ≤ max_word) × (n ≤ max_fields) × (n ≤ length ns.now) }
    ensures { Does (say (number_line word.now (take n ns.now))) result answer.old answer.new }
{
    let size = line_length(word, ns, n);
    if answer.len() < size {
        return Err(Unsaid::Long(size));
    }
    let end = put_line(answer, 0, word, ns, n);
    Ok(end)
}

// The word alone.
pub fn say_word(answer: &mut [u8], word: &[u8]) -> Result<usize, Unsaid>
    requires { length word.now ≤ max_word }
    ensures { Does (say (number_line word.now [])) result answer.old answer.new }
{
    say(answer, word, &[], 0)
}

// A question that is refused, as one of many.
pub fn say_refused(answer: &mut [u8], n: u32, line: u32) -> Result<usize, Unsaid>
    ensures { Does (say (refused_bytes n line)) result answer.old answer.new }
{
    say(answer, b"refused", &[n, line], 2)
}

// I and C.
pub fn say_truth(answer: &mut [u8], b: bool) -> Result<usize, Unsaid>
    ensures { Does (say (answer_bytes (says b))) result answer.old answer.new }
{
    if b {
        say_word(answer, b"yes")
    } else {
        say_word(answer, b"no")
    }
}

// V.
pub fn say_counts(answer: &mut [u8], rows: &[u32]) -> Result<usize, Unsaid>
    ensures { Does (say (answer_bytes (counts (package_count rows.now) (type_count rows.now) (member_count_of rows.now)))) result answer.old answer.new }
{
    let numbers = [package_count(rows), type_count(rows), member_count(rows)];
    say(answer, b"ok", &numbers, 3)
}

// N.
pub fn say_missing(answer: &mut [u8], m: Option<Missing>) -> Result<usize, Unsaid>
    ensures { (text : Bytes) (rows : Words) → Does (say (answer_bytes (lack_answer (missing_meant text rows m)))) result answer.old answer.new }
{
    match m {
        None => say_word(answer, b"satisfied"),
        Some(lack) => {
            let numbers = [lack.method.0, u32::from(lack.other_type)];
            say(answer, b"missing", &numbers, 2)
        }
    }
}
