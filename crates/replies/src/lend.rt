// What the questions are lent: arrays that are made once for a call. One question is lent no more than its letter needs. A search is lent two records for each type,
// of an array that is the shorter the fewer types there are: clearing it is much of the time of a question on a small table. M, and many questions together, are lent a
// word and a first hit for each member too.
ghost use Rattle.std.specs.Prelude.{◌≡◌, ◌*◌, ◌≤◌, length, replicate};
ghost use Rattle.objects.specs.Bounds.{mark_words, max_members};
ghost use Rattle.objects.specs.Rows.{type_count, member_count_of, table_of};
ghost use Rattle.rules.specs.Library.{Library};
ghost use Rattle.rules.specs.Question.{question_of};
ghost use Rattle.answer.specs.declared.Need.{Need};
ghost use Rattle.answer.specs.Lent.{need_of, search_words};
ghost use Rattle.multiples.specs.Records.{max_records};
ghost use Rattle.replies.specs.declared.Asking.{Asking};
ghost use Rattle.replies.specs.Replies.{Ends, said_of};

use crate::Asking;
use crate::all::reply_all;
use answer::{Need, SEARCH_WORDS, answered, lent_for};
use first_hits::FirstHit;
use multiples::{EmbeddedType, MAX_RECORDS};
use objects::bounds::{FEW_RECORDS, MAX_MEMBERS, SOME_MEMBERS, SOME_RECORDS};
use objects::rows::{member_count, type_count};
use reply::Unsaid;

// I, C, V and lines of wrong form.
fn with_nothing(
    text: &[u8],
    rows: &[u32],
    marks: &mut [u32],
    line: &[u8],
    answer: &mut [u8],
) -> Result<usize, Unsaid>
    requires library { Library text.now rows.now }
    requires mark_words_in_bounds { (mark_words ≤ length marks.old) × (need_of (question_of (table_of text.now rows.now) line.now) ≡ Need.Nothing) }
    requires marks_value { marks.old ≡ replicate (length marks.old) 0 }
    ensures ends { Ends (said_of Asking.One line.now (table_of text.now rows.now)) result answer.old answer.new }
    ensures marks_unchanged { marks.new ≡ marks.old }
{
    let mut walk = [EmbeddedType::EMPTY; 1];
    let mut hits = [FirstHit::EMPTY; 1];
    let mut words = [0u32; 1];
    answered(
        text, rows, marks, &mut walk, &mut hits, &mut words, line, answer,
    )
}

// S and N.
fn with_walk(
    text: &[u8],
    rows: &[u32],
    marks: &mut [u32],
    line: &[u8],
    answer: &mut [u8],
) -> Result<usize, Unsaid>
    requires library { Library text.now rows.now }
    requires mark_words_in_bounds { (mark_words ≤ length marks.old) × (need_of (question_of (table_of text.now rows.now) line.now) ≡ Need.Walk) }
    requires marks_value { marks.old ≡ replicate (length marks.old) 0 }
    ensures ends { Ends (said_of Asking.One line.now (table_of text.now rows.now)) result answer.old answer.new }
    ensures marks_unchanged { marks.new ≡ marks.old }
{
    let n = 2 * type_count(rows) as usize;
    if n <= FEW_RECORDS {
        return with_walk_of::<FEW_RECORDS>(text, rows, marks, line, answer);
    }
    if n <= SOME_RECORDS {
        return with_walk_of::<SOME_RECORDS>(text, rows, marks, line, answer);
    }
    with_walk_of::<MAX_RECORDS>(text, rows, marks, line, answer)
}

// The same with so many records.
fn with_walk_of<const RECORDS: usize>(
    text: &[u8],
    rows: &[u32],
    marks: &mut [u32],
    line: &[u8],
    answer: &mut [u8],
) -> Result<usize, Unsaid>
    requires library { Library text.now rows.now }
    requires mark_words_in_bounds { (mark_words ≤ length marks.old) × (need_of (question_of (table_of text.now rows.now) line.now) ≡ Need.Walk) }
    requires marks_value { marks.old ≡ replicate (length marks.old) 0 }
    requires room { (2 * type_count rows.now ≤ RECORDS) × (RECORDS ≤ max_records) }
    ensures ends { Ends (said_of Asking.One line.now (table_of text.now rows.now)) result answer.old answer.new }
    ensures marks_unchanged { marks.new ≡ marks.old }
{
    let n = 2 * type_count(rows) as usize;
    let mut walk = [EmbeddedType::EMPTY; RECORDS];
    let mut hits = [FirstHit::EMPTY; 1];
    let mut words = [0u32; SEARCH_WORDS];
    let w = &mut walk[..n];
    answered(text, rows, marks, w, &mut hits, &mut words, line, answer)
}

// M, or many questions. Few records go with as few members.
fn with_all(
    text: &[u8],
    rows: &[u32],
    marks: &mut [u32],
    line: &[u8],
    answer: &mut [u8],
    asking: Asking,
) -> Result<usize, Unsaid>
    requires library { Library text.now rows.now }
    requires mark_words_in_bounds { mark_words ≤ length marks.old }
    requires marks_value { marks.old ≡ replicate (length marks.old) 0 }
    ensures ends { Ends (said_of asking line.now (table_of text.now rows.now)) result answer.old answer.new }
    ensures marks_unchanged { marks.new ≡ marks.old }
{
    let n = 2 * type_count(rows) as usize;
    let members = member_count(rows) as usize;
    if n <= FEW_RECORDS && members <= FEW_RECORDS {
        return with_all_of::<FEW_RECORDS, FEW_RECORDS, SEARCH_WORDS>(
            text, rows, marks, line, answer, asking,
        );
    }
    if n <= SOME_RECORDS && members <= SOME_MEMBERS {
        return with_all_of::<SOME_RECORDS, SOME_MEMBERS, SEARCH_WORDS>(
            text, rows, marks, line, answer, asking,
        );
    }
    with_all_of::<MAX_RECORDS, MAX_MEMBERS, MAX_MEMBERS>(text, rows, marks, line, answer, asking)
}

// The same with so many records, first hits and words.
fn with_all_of<const RECORDS: usize, const MEMBERS: usize, const WORDS: usize>(
    text: &[u8],
    rows: &[u32],
    marks: &mut [u32],
    line: &[u8],
    answer: &mut [u8],
    asking: Asking,
) -> Result<usize, Unsaid>
    requires library { Library text.now rows.now }
    requires mark_words_in_bounds { mark_words ≤ length marks.old }
    requires marks_value { marks.old ≡ replicate (length marks.old) 0 }
    requires records { (2 * type_count rows.now ≤ RECORDS) × (RECORDS ≤ max_records) }
    requires members { (member_count_of rows.now ≤ MEMBERS) × (MEMBERS ≤ max_members) }
    requires words { (member_count_of rows.now ≤ WORDS) × (search_words ≤ WORDS) × (WORDS ≤ max_members) }
    ensures ends { Ends (said_of asking line.now (table_of text.now rows.now)) result answer.old answer.new }
    ensures marks_unchanged { marks.new ≡ marks.old }
{
    let n = 2 * type_count(rows) as usize;
    let mut walk = [EmbeddedType::EMPTY; RECORDS];
    let mut hits = [FirstHit::EMPTY; MEMBERS];
    let mut words = [0u32; WORDS];
    let w = &mut walk[..n];
    match asking {
        Asking::All => reply_all(text, rows, marks, w, &mut hits, &mut words, line, answer),
        Asking::One => answered(text, rows, marks, w, &mut hits, &mut words, line, answer),
    }
}

// What is due to a question line, or to a text of them. The marks are clear when it is called, and when it returns.
pub fn replied(
    text: &[u8],
    rows: &[u32],
    marks: &mut [u32],
    line: &[u8],
    answer: &mut [u8],
    asking: Asking,
) -> Result<usize, Unsaid>
    requires library { Library text.now rows.now }
    requires mark_words_in_bounds { mark_words ≤ length marks.old }
    requires marks_value { marks.old ≡ replicate (length marks.old) 0 }
    ensures ends { Ends (said_of asking line.now (table_of text.now rows.now)) result answer.old answer.new }
    ensures marks_unchanged { marks.new ≡ marks.old }
{
    match asking {
        Asking::All => with_all(text, rows, marks, line, answer, Asking::All),
        Asking::One => match lent_for(rows, line) {
            Need::Nothing => with_nothing(text, rows, marks, line, answer),
            Need::Walk => with_walk(text, rows, marks, line, answer),
            Need::Set => with_all(text, rows, marks, line, answer, Asking::One),
        },
    }
}
