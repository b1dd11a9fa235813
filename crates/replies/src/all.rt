// All answers in front of the buffer, or none of them: nothing is written before the length of all is known. Answers are made in a stage first. Where it holds them
// all, as it does for hundreds of questions, each is made once; what is left when it is full is looked through for its length, and made again where it belongs.
ghost use Rattle.std.specs.Prelude.{◌≡◌, ◌++◌, ◌≤◌, leb, length, take, drop, replicate};
ghost use Rattle.objects.specs.Bounds.{mark_words};
ghost use Rattle.objects.specs.Lists.{flat};
ghost use Rattle.objects.specs.Rows.{table_of};
ghost use Rattle.rules.specs.AskedAll.{question_lines, reply_bytes, replied_all};
ghost use Rattle.rules.specs.Library.{Library};
ghost use Rattle.answer.specs.Lent.{Lent};
ghost use Rattle.replies.specs.Replies.{Ends};

use crate::fill::fill;
use crate::reply;
use first_hits::FirstHit;
use input::next_question;
use multiples::EmbeddedType;
use objects::refusals::{Reason, Refusal};
use reply::Unsaid;

// The bytes of the stage.
pub const STAGE: usize = 16_384;

// 13
const SHORT: Refusal = Refusal {
    reason: Reason::AnswerShort,
    line: 0,
};

// The length of what stands for a question.
fn reply_length(
    text: &[u8],
    rows: &[u32],
    marks: &mut [u32],
    walk: &mut [EmbeddedType],
    hits: &mut [FirstHit],
    words: &mut [u32],
    line: &[u8],
) -> usize
    requires library { Library text.now rows.now }
    requires mark_words_in_bounds { (mark_words ≤ length marks.old) × Lent rows.now walk.old hits.old words.old }
    requires marks_value { marks.old ≡ replicate (length marks.old) 0 }
    ensures value { result ≡ length (reply_bytes (table_of text.now rows.now) line.now) }
    ensures marks_unchanged { marks.new ≡ marks.old }
    ensures lent { Lent rows.now walk.new hits.new words.new }
{
    let mut none = [0u8; 1];
    match reply(text, rows, marks, walk, hits, words, line, &mut none) {
        Ok(n) => n,
        Err(Unsaid::Long(n)) => n,
        Err(Unsaid::Refused(_)) => 0,
    }
}

// Whether the answers to all questions have room in so many bytes.
fn fits(
    text: &[u8],
    rows: &[u32],
    marks: &mut [u32],
    walk: &mut [EmbeddedType],
    hits: &mut [FirstHit],
    words: &mut [u32],
    questions: &[u8],
    room: usize,
) -> bool
    requires library { Library text.now rows.now }
    requires mark_words_in_bounds { (mark_words ≤ length marks.old) × Lent rows.now walk.old hits.old words.old }
    requires marks_value { marks.old ≡ replicate (length marks.old) 0 }
    ensures value { result ≡ leb (length (flat (reply_bytes (table_of text.now rows.now)) (question_lines questions.now))) room }
    ensures marks_unchanged { marks.new ≡ marks.old }
    ensures lent { Lent rows.now walk.new hits.new words.new }
{
    let mut at: usize = 0;
    let mut left = room;
    // A loop, since the place moves by a question.
    loop {
        let Some((end, next)) = next_question(questions, at) else {
            return true;
        };
        let line = &questions[at..end];
        let n = reply_length(text, rows, marks, walk, hits, words, line);
        if left < n {
            return false;
        }
        left -= n;
        at = next;
    }
}

// The first n bytes come in front of the buffer.
fn put_front(answers: &mut [u8], stage: &[u8], n: usize)
    requires { (n ≤ length answers.old) × (n ≤ length stage.now) }
    ensures { answers.new ≡ take n stage.now ++ drop n answers.old }
{
    answers[..n].copy_from_slice(&stage[..n]);
}

// 13, or the length of all.
pub fn reply_all(
    text: &[u8],
    rows: &[u32],
    marks: &mut [u32],
    walk: &mut [EmbeddedType],
    hits: &mut [FirstHit],
    words: &mut [u32],
    questions: &[u8],
    answers: &mut [u8],
) -> Result<usize, Unsaid>
    requires library { Library text.now rows.now }
    requires mark_words_in_bounds { (mark_words ≤ length marks.old) × Lent rows.now walk.old hits.old words.old }
    requires marks_value { marks.old ≡ replicate (length marks.old) 0 }
    ensures ends { Ends (replied_all questions.now (table_of text.now rows.now)) result answers.old answers.new }
    ensures marks_unchanged { marks.new ≡ marks.old }
{
    let mut stage = [0u8; STAGE];
    let first = fill(text, rows, marks, walk, hits, words, questions, &mut stage);
    let n = first.n;
    if answers.len() < n {
        return Err(Unsaid::Refused(SHORT));
    }
    let at = first.at;
    let rest = &questions[at..];
    let room = answers.len() - n;
    if fits(text, rows, marks, walk, hits, words, rest, room) {
        put_front(answers, &stage, n);
        let last = fill(
            text,
            rows,
            marks,
            walk,
            hits,
            words,
            rest,
            &mut answers[n..],
        );
        let total = n + last.n;
        return Ok(total);
    }
    Err(Unsaid::Refused(SHORT))
}
