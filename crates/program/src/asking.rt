// The next piece of what is printed, in front of a buffer.
ghost use Rattle.std.specs.Prelude.{◌≡◌, ◌≤◌, length, replicate};
ghost use Rattle.objects.specs.Bounds.{program_answer, mark_words};
ghost use Rattle.objects.specs.Rows.{table_of};
ghost use Rattle.rules.specs.Library.{Library};
ghost use Rattle.rules.specs.AskedAll.{refused_bytes};
ghost use Rattle.answer.specs.Lent.{Lent};
ghost use Rattle.program.specs.Steps.{Shows, Prints, refused_room};

use first_hits::FirstHit;
use input::next_question;
use multiples::EmbeddedType;
use replies::Filled;
use replies::fill::fill;
use reply::one_line::say_refused;

// The line of a refusal.
pub fn put_refused(n: u32, line: u32, out: &mut [u8]) -> usize
    requires { refused_room ≤ length out.old }
    ensures { Shows (refused_bytes n line) out.new result }
{
    say_refused(out, n, line).unwrap_or(0)
}

// The answers to as many questions as the buffer holds; for one whose answer alone is longer, refusal 13. No question is taken where none is left.
pub fn next_piece(
    text: &[u8],
    rows: &[u32],
    marks: &mut [u32],
    walk: &mut [EmbeddedType],
    hits: &mut [FirstHit],
    words: &mut [u32],
    questions: &[u8],
    out: &mut [u8],
) -> Filled
    requires library { Library text.now rows.now }
    requires mark_words_in_bounds { (mark_words ≤ length marks.old) × Lent rows.now walk.old hits.old words.old × (length out.old ≡ program_answer) }
    requires marks_value { marks.old ≡ replicate (length marks.old) 0 }
    ensures prints { Prints (table_of text.now rows.now) questions.now result out.new }
    ensures marks_unchanged { marks.new ≡ marks.old }
    ensures lent { Lent rows.now walk.new hits.new words.new }
{
    let f = fill(text, rows, marks, walk, hits, words, questions, out);
    if 0 < f.at {
        return f;
    }
    let Some((_, next)) = next_question(questions, 0) else {
        return f;
    };
    let n = put_refused(13, 0, out);
    Filled { at: next, n }
}
