// The answer to a question on loaded rows: refusals 11 and 12, or the lines of the answer in front of the buffer. What a question searches with is lent, so that it
// serves one question after the other (specs/Lent.antt).
#![tactic(auto)]

pub mod asks; // the questions, letter by letter

ghost use Rattle.std.specs.Prelude.{◌≡◌, ◌≤◌, length, replicate};
ghost use Rattle.objects.specs.Bounds.{mark_words};
ghost use Rattle.objects.specs.Lists.{Bytes};
ghost use Rattle.objects.specs.Rows.{table_of};
ghost use Rattle.rules.specs.Asked.{replied};
ghost use Rattle.rules.specs.Library.{Library};
ghost use Rattle.rules.specs.Question.{question_of};
ghost use Rattle.reply.specs.Done.{Does};
ghost use Rattle.answer.specs.Lent.{Enough, need_of, Kept};

use crate::asks::{Implements, Operand, ask_c, ask_i, ask_m, ask_n, ask_s, ask_v};
use first_hits::FirstHit;
use multiples::EmbeddedType;
use objects::bounds::MAX_PLACES;
use objects::refusals::{Reason, Refusal};
use question::{Ask, question, wrong_second};
use reply::Unsaid;
use selection::Name;

// The words that a search is lent: the places of two ways, behind two that are left free for the answer.
pub const SEARCH_WORDS: usize = 2 + 2 * MAX_PLACES;

// What a question is lent: nothing, records and words for a search, or also first hits for the names of a set.
#[derive(Clone, Copy)]
pub enum Need {
    Nothing,
    Walk,
    Set,
}

// What the question of a line is lent.
pub fn lent_for(rows: &[u32], line: &[u8]) -> Need
    ensures { (text : Bytes) → result ≡ need_of (question_of (table_of text rows.now) line.now) }
{
    let Some(asked) = question(rows, line) else {
        return Need::Nothing;
    };
    match asked {
        Ask::S(..) | Ask::N(..) => Need::Walk,
        Ask::M(_) => Need::Set,
        Ask::I(..) | Ask::C(_) | Ask::V => Need::Nothing,
    }
}

// 11, 12, or the answer. The marks are clear when it is called, and when it returns.
pub fn answered(
    text: &[u8],
    rows: &[u32],
    marks: &mut [u32],
    walk: &mut [EmbeddedType],
    hits: &mut [FirstHit],
    words: &mut [u32],
    line: &[u8],
    answer: &mut [u8],
) -> Result<usize, Unsaid>
    requires library { Library text.now rows.now }
    requires mark_words_in_bounds { (mark_words ≤ length marks.old) × Enough rows.now walk.old hits.old words.old (need_of (question_of (table_of text.now rows.now) line.now)) }
    requires marks_value { marks.old ≡ replicate (length marks.old) 0 }
    ensures does { Does (replied line.now (table_of text.now rows.now)) result answer.old answer.new }
    ensures marks_unchanged { marks.new ≡ marks.old }
    ensures kept { Kept rows.now hits.old hits.new }
{
    let a = question(rows, line);
    let Some(asked) = a else {
        return Err(Unsaid::Refused(Refusal {
            reason: Reason::Question,
            line: 0,
        }));
    };
    match asked {
        Ask::S(t, addressable, pkg, at, len) => ask_s(
            text,
            rows,
            walk,
            words,
            line,
            answer,
            Name { at, len, pkg },
            Operand {
                typ: t,
                addressable,
            },
        ),
        Ask::M(t) => ask_m(text, rows, walk, hits, words, answer, t),
        Ask::N(t, i, s) => {
            if wrong_second(rows, a) {
                return Err(Unsaid::Refused(Refusal {
                    reason: Reason::SecondType,
                    line: 0,
                }));
            }
            let x = Implements {
                typ: t,
                iface: i,
                statically: s,
            };
            ask_n(text, rows, marks, walk, words, answer, x)
        }
        Ask::I(x, y) => ask_i(text, rows, marks, answer, x, y),
        Ask::C(t) => ask_c(text, rows, marks, answer, t),
        Ask::V => ask_v(text, rows, answer),
    }
}
