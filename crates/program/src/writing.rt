// Writes what the functions on slices give. Each function here that writes asks of its caller that what it is handed is due, at its place, and answers the place
// behind it. At a writer whose bytes are known (`W.contents`, as of a Vec) each also says that these bytes were written, once and in this order; of what standard
// output does with them no contract can speak. A write that fails ends all of them with the writer's error, which is the only one that they answer; how much of
// what was due is then written is not said.
ghost use Rattle.std.specs.Prelude.{◌≡◌, ◌+◌, ◌*◌, ◌≤◌, length, take, replicate, IfOk, OnOk};
ghost use Rattle.std.specs.Io.KnownBytes.{Appends};
ghost use Rattle.objects.specs.Bounds.{max_text, program_answer, mark_words};
ghost use Rattle.objects.specs.Rows.{table_of};
ghost use Rattle.rules.specs.AskedAll.{refused_bytes};
ghost use Rattle.rules.specs.Library.{Library};
ghost use Rattle.rules.specs.Typeask.{typeask};
ghost use Rattle.answer.specs.Lent.{Lent};
ghost use Rattle.program.specs.Steps.{due, Stands};

use crate::asking::{next_piece, put_refused};
use first_hits::FirstHit;
use multiples::{EmbeddedType, MAX_RECORDS};
use objects::bounds::{MAX_MEMBERS, PROGRAM_ANSWER, WORK_WORDS};
use std::io;
use std::io::Write;

// A refused table: its line is all that is due for the input.
pub fn refuse<W: Write>(to: &mut W, input: &[u8], n: u32, line: u32) -> io::Result<usize>
    requires { typeask input.now ≡ refused_bytes n line }
    ensures place { IfOk result (λ k. k ≡ length (refused_bytes n line)) }
    ensures bytes { OnOk result (Appends (W.contents to.old) (W.contents to.new) (refused_bytes n line)) }
{
    let mut out = [0u8; 64];
    let k = put_refused(n, line, &mut out);
    to.write_all(&out[0..k])?;
    Ok(k)
}

// The first n bytes of the buffer: those of all that is due for the questions which stand at this place. Answers the place behind them.
fn show<W: Write>(
    to: &mut W,
    text: &[u8],
    rows: &[u32],
    questions: &[u8],
    at: usize,
    out: &[u8],
    n: usize,
) -> io::Result<usize>
    requires { (n ≤ length out.now) × Stands (due (table_of text.now rows.now) questions.now) at (take n out.now) × (at + n ≤ max_text * program_answer) }
    ensures place { IfOk result (λ k. k ≡ at + n) }
    ensures bytes { OnOk result (Appends (W.contents to.old) (W.contents to.new) (take n out.now)) }
{
    to.write_all(&out[0..n])?;
    Ok(at + n)
}

// Piece after piece, until nothing is due. The scratch and the buffer are the same for all of them. Each question has a byte for itself and an answer that fits the
// buffer, so there are no more bytes than max_text times program_answer.
fn show_all<W: Write>(
    to: &mut W,
    text: &[u8],
    rows: &[u32],
    marks: &mut [u32],
    walk: &mut [EmbeddedType],
    hits: &mut [FirstHit],
    words: &mut [u32],
    questions: &[u8],
    out: &mut [u8],
) -> io::Result<usize>
    requires library { Library text.now rows.now }
    requires mark_words_in_bounds { (mark_words ≤ length marks.old) × Lent rows.now walk.old hits.old words.old × (length out.old ≡ program_answer) × (length questions.now ≤ max_text) }
    requires marks_value { marks.old ≡ replicate (length marks.old) 0 }
    ensures place { IfOk result (λ k. k ≡ length (due (table_of text.now rows.now) questions.now)) }
    ensures bytes { OnOk result (Appends (W.contents to.old) (W.contents to.new) (due (table_of text.now rows.now) questions.now)) }
{
    let mut at: usize = 0;
    let mut total: usize = 0;
    // A loop, since the place moves by as many questions as a piece answers.
    loop {
        let rest = &questions[at..];
        let f = next_piece(text, rows, marks, walk, hits, words, rest, out);
        if f.at == 0 {
            return Ok(total);
        }
        total = show(to, text, rows, questions, total, out, f.n)?;
        at += f.at;
    }
}

// The answers to all questions. What they are lent is as long as any table needs.
pub fn print_all<W: Write>(
    to: &mut W,
    text: &[u8],
    rows: &[u32],
    questions: &[u8],
) -> io::Result<usize>
    requires { Library text.now rows.now × (length questions.now ≤ max_text) }
    ensures place { IfOk result (λ k. k ≡ length (due (table_of text.now rows.now) questions.now)) }
    ensures bytes { OnOk result (Appends (W.contents to.old) (W.contents to.new) (due (table_of text.now rows.now) questions.now)) }
{
    let mut marks = [0u32; WORK_WORDS];
    let mut walk = [EmbeddedType::EMPTY; MAX_RECORDS];
    let mut hits = [FirstHit::EMPTY; MAX_MEMBERS];
    let mut words = [0u32; MAX_MEMBERS];
    let mut out = [0u8; PROGRAM_ANSWER];
    show_all(
        to, text, rows, &mut marks, &mut walk, &mut hits, &mut words, questions, &mut out,
    )
}
