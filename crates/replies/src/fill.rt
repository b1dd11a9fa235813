// As many answers as fit into a buffer, one after the other: what a call with many questions and the program have in common.
ghost use Rattle.std.specs.Prelude.{◌≡◌, ◌≤◌, length, replicate};
ghost use Rattle.objects.specs.Bounds.{mark_words};
ghost use Rattle.objects.specs.Rows.{table_of};
ghost use Rattle.rules.specs.Library.{Library};
ghost use Rattle.answer.specs.Lent.{Lent};
ghost use Rattle.replies.specs.Replies.{Fills};

use crate::{Filled, reply};
use first_hits::FirstHit;
use input::next_question;
use multiples::EmbeddedType;

// Stops at the end of the questions, or at the first whose answer has no room behind the others.
pub fn fill(
    text: &[u8],
    rows: &[u32],
    marks: &mut [u32],
    walk: &mut [EmbeddedType],
    hits: &mut [FirstHit],
    words: &mut [u32],
    questions: &[u8],
    out: &mut [u8],
) -> Filled
    requires library { Library text.now rows.now }
    requires mark_words_in_bounds { (mark_words ≤ length marks.old) × Lent rows.now walk.old hits.old words.old }
    requires marks_value { marks.old ≡ replicate (length marks.old) 0 }
    ensures fills { Fills (table_of text.now rows.now) questions.now out.old result out.new }
    ensures marks_unchanged { marks.new ≡ marks.old }
    ensures lent { Lent rows.now walk.new hits.new words.new }
{
    let mut at: usize = 0;
    let mut n: usize = 0;
    // A loop, since the place moves by a question.
    loop {
        let Some((end, next)) = next_question(questions, at) else {
            return Filled { at, n };
        };
        let line = &questions[at..end];
        match reply(text, rows, marks, walk, hits, words, line, &mut out[n..]) {
            Ok(k) => {
                n += k;
                at = next;
            }
            Err(_) => return Filled { at, n },
        }
    }
}
