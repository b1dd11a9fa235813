// Answers on loaded rows: to one question, or to many, one after the other. What the questions search with is made once for all of them (lend.rt).
#![tactic(auto)]

pub mod all; // all answers or none
pub mod fill; // as many answers as fit
pub mod lend; // what the questions are lent

ghost use Rattle.std.specs.Prelude.{◌≡◌, ◌≤◌, length, replicate};
ghost use Rattle.objects.specs.Bounds.{mark_words};
ghost use Rattle.objects.specs.Rows.{table_of};
ghost use Rattle.rules.specs.Asked.{say};
ghost use Rattle.rules.specs.AskedAll.{reply_bytes};
ghost use Rattle.rules.specs.Library.{Library};
ghost use Rattle.reply.specs.Done.{Does};
ghost use Rattle.answer.specs.Lent.{Lent};

use answer::answered;
use first_hits::FirstHit;
use multiples::EmbeddedType;
use reply::Unsaid;
use reply::one_line::say_refused;

// What is asked: one question, or a text of them.
#[derive(Clone, Copy, PartialEq, Eq)]
pub enum Asking {
    One,
    All,
}

// How far the questions are answered: the place of the first that is left, and the bytes that their answers take.
#[derive(Clone, Copy)]
pub struct Filled {
    pub at: usize,
    pub n: usize,
}

// One of many questions: its answer, or the line of its refusal. The marks are clear when it is called, and when it returns; the scratch may be lent again.
pub fn reply(
    text: &[u8],
    rows: &[u32],
    marks: &mut [u32],
    walk: &mut [EmbeddedType],
    hits: &mut [FirstHit],
    words: &mut [u32],
    line: &[u8],
    out: &mut [u8],
) -> Result<usize, Unsaid>
    requires library { Library text.now rows.now }
    requires mark_words_in_bounds { (mark_words ≤ length marks.old) × Lent rows.now walk.old hits.old words.old }
    requires marks_value { marks.old ≡ replicate (length marks.old) 0 }
    ensures does { Does (say (reply_bytes (table_of text.now rows.now) line.now)) result out.old out.new }
    ensures marks_unchanged { marks.new ≡ marks.old }
    ensures lent { Lent rows.now walk.new hits.new words.new }
{
    let d = answered(text, rows, marks, walk, hits, words, line, out);
    let Err(unsaid) = d else {
        return d;
    };
    match unsaid {
        Unsaid::Refused(r) => say_refused(out, r.reason.number(), r.line),
        Unsaid::Long(_) => d,
    }
}
