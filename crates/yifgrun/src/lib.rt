// The exported calls: a question on a table, or many of them, answered into a lent buffer; a table written out tidy; and what a host asks of the library itself,
// how many words of work area a call needs and which version it is.
#![tactic(auto)]

ghost use Rattle.std.specs.Prelude.{◌≡◌, ◌≤◌, length, replicate};
ghost use Rattle.objects.specs.Bounds.{all_words, room_for, work_words};
ghost use Rattle.objects.specs.Refusals.{reason_number};
ghost use Rattle.rules.specs.Asked.{on_table, refusal, asked};
ghost use Rattle.rules.specs.AskedAll.{asked_all};
ghost use Rattle.edits.specs.Tidying.{tidied_call};
ghost use Rattle.objects.specs.Rows.{table_of};
ghost use Rattle.rules.specs.Library.{Library};
ghost use Rattle.rules.specs.Load.{load};
ghost use Rattle.reply.specs.Done.{number_read, Fits};
ghost use Rattle.replies.specs.Replies.{said_of, Ends};
ghost use Rattle.yifgrun.specs.Gives.{Cleared, Gives, asked_by};
ghost use Rattle.yifgrun.specs.Version.{version};

use crate::tidying::tidy_with;
use objects::bounds::{
    ALL_WORDS, LONG_TEXT, LONG_WORDS, MEDIAN_TEXT, MEDIAN_WORDS, MIDDLE_TEXT, MIDDLE_WORDS,
    REFUSAL_UNIT, SMALL_TEXT, SMALL_WORDS, WORK_WORDS,
};
use objects::refusals::{Reason, Refusal};
use pair_marks::marks::clear;
use replies::Asking;
use replies::lend::replied;
use reply::Unsaid;
use signs::sign_members;
use table::load;

pub mod tidying; // a table loaded and written out tidy

// CHANGELOG.md has the versions; specs/Version.antt has the same three numbers.
const MAJOR: u32 = 0;

const MINOR: u32 = 8;

const PATCH: u32 = 0;

// Minor and patch stay below it.
const VERSION_UNIT: u32 = 256;

const VERSION: u32 = (MAJOR * VERSION_UNIT + MINOR) * VERSION_UNIT + PATCH;

// 1
const WORK_SHORT: Refusal = Refusal {
    reason: Reason::WorkShort,
    line: 0,
};

// Members are signed where many names are to be looked for.
fn sign_for_many(table: &[u8], rows: &mut [u32], asking: Asking)
    requires { Library table.now rows.old }
    ensures library { Library table.now rows.new }
    ensures rows_unchanged { table_of table.now rows.new ≡ table_of table.now rows.old }
{
    if asking == Asking::All {
        sign_members(table, rows);
    }
}

// Refusals 2 to 14, or what is due to a question or to a text of them. The work area is clear when it is called, and when it returns; the rows are clear when it is called, and have room for
// the table.
fn decide_in(
    table: &[u8],
    rows: &mut [u32],
    question: &[u8],
    answer: &mut [u8],
    work: &mut [u32],
    asking: Asking,
) -> Result<usize, Unsaid>
    requires { Cleared work.old × (rows.old ≡ replicate (length rows.old) 0) × (room_for (length table.now) ≤ length rows.old) }
    ensures ends { Ends (on_table (said_of asking question.now) (load table.now)) result answer.old answer.new }
    ensures work_unchanged { work.new ≡ work.old }
{
    load(table, rows)?;
    sign_for_many(table, rows, asking);
    replied(table, rows, work, question, answer, asking)
}

// The same with rows of its own, whose words are all cleared: as few as the length of the table allows. The function of each size has a frame of its own.
fn decide<const WORDS: usize>(
    table: &[u8],
    question: &[u8],
    answer: &mut [u8],
    work: &mut [u32],
    asking: Asking,
) -> Result<usize, Unsaid>
    requires { Cleared work.old × (room_for (length table.now) ≤ WORDS) × (WORDS ≤ all_words) }
    ensures ends { Ends (on_table (said_of asking question.now) (load table.now)) result answer.old answer.new }
    ensures work_unchanged { work.new ≡ work.old }
{
    let mut rows = [0u32; WORDS];
    decide_in(table, &mut rows, question, answer, work, asking)
}

// "minus (refusal × 65,536 + line)"
fn refusal(r: Refusal) -> i64
    ensures { result ≡ refusal (reason_number r.reason) r.line }
{
    -((u64::from(r.reason.number()) * REFUSAL_UNIT + u64::from(r.line)) as i64)
}

// "the answer's length", or the number of the refusal
fn number(d: Result<usize, Unsaid>) -> i64
    requires { Fits d }
    ensures { result ≡ number_read d }
{
    match d {
        Ok(n) => n as i64,
        Err(unsaid) => match unsaid {
            Unsaid::Refused(r) => refusal(r),
            Unsaid::Long(_) => refusal(Refusal {
                reason: Reason::AnswerShort,
                line: 0,
            }),
        },
    }
}

// Both calls. The words behind those that a call needs are cleared, and the call is made again on the others. They are of no use to it; and a compiler keeps the
// frames of what a function that calls itself calls apart, so that a small table touches no stack but that of its own rows.
fn call(table: &[u8], question: &[u8], answer: &mut [u8], work: &mut [u32], asking: Asking) -> i64
    ensures { Gives (asked_by asking table.now question.now answer.old work.old) result answer.new work.new }
{
    if work.len() < WORK_WORDS {
        return refusal(WORK_SHORT);
    }
    if work.len() > WORK_WORDS {
        clear(&mut work[WORK_WORDS..]);
        return call(table, question, answer, &mut work[..WORK_WORDS], asking);
    }
    clear(work);
    if table.len() <= SMALL_TEXT {
        return number(decide::<SMALL_WORDS>(table, question, answer, work, asking));
    }
    if table.len() <= MEDIAN_TEXT {
        return number(decide::<MEDIAN_WORDS>(table, question, answer, work, asking));
    }
    if table.len() <= MIDDLE_TEXT {
        return number(decide::<MIDDLE_WORDS>(table, question, answer, work, asking));
    }
    if table.len() <= LONG_TEXT {
        return number(decide::<LONG_WORDS>(table, question, answer, work, asking));
    }
    number(decide::<ALL_WORDS>(table, question, answer, work, asking))
}

// A question line without its newline.
pub fn yifgrun_ask(table: &[u8], question: &[u8], answer: &mut [u8], work: &mut [u32]) -> i64
    ensures { Gives (asked table.now question.now answer.old work.old) result answer.new work.new }
{
    call(table, question, answer, work, Asking::One)
}

// Question lines, of which the last may lack its newline. The table is loaded once.
pub fn yifgrun_ask_all(table: &[u8], questions: &[u8], answers: &mut [u8], work: &mut [u32]) -> i64
    ensures { Gives (asked_all table.now questions.now answers.old work.old) result answers.new work.new }
{
    call(table, questions, answers, work, Asking::All)
}

// The table with only the least-numbered type of each set of identical types. It uses none of the work area, and has functions of its own for its rows: they
// leave the frames of the other calls as they are.
pub fn yifgrun_tidy(table: &[u8], output: &mut [u8], work: &mut [u32]) -> i64
    ensures { Gives (tidied_call table.now output.old work.old) result output.new work.new }
{
    if work.len() < WORK_WORDS {
        return refusal(WORK_SHORT);
    }
    clear(work);
    if table.len() <= LONG_TEXT {
        return number(tidy_with::<LONG_WORDS>(table, output));
    }
    number(tidy_with::<ALL_WORDS>(table, output))
}

// The words of work area that a call needs: fewer are refusal 1.
pub fn yifgrun_work_words() -> usize
    ensures { result ≡ work_words }
{
    WORK_WORDS
}

// The library's version as one number.
pub fn yifgrun_version() -> u32
    ensures { result ≡ version }
{
    VERSION
}
