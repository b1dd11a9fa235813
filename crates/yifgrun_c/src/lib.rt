// The C interface of the library: each function of the crate yifgrun that a host calls, under the same name, with the same contract.
#![tactic(auto)]

ghost use Rattle.std.specs.Prelude.{◌≡◌};
ghost use Rattle.objects.specs.Bounds.{work_words};
ghost use Rattle.rules.specs.Asked.{asked};
ghost use Rattle.rules.specs.AskedAll.{asked_all};
ghost use Rattle.edits.specs.Tidying.{tidied_call};
ghost use Rattle.yifgrun.specs.Gives.{Gives};
ghost use Rattle.yifgrun.specs.Version.{version};

// A question line without its newline.
#[unsafe(no_mangle)]
pub extern "C" fn yifgrun_ask(
    table: &[u8],
    question: &[u8],
    answer: &mut [u8],
    work: &mut [u32],
) -> i64
    ensures { Gives (asked table.now question.now answer.old work.old) result answer.new work.new }
{
    yifgrun::yifgrun_ask(table, question, answer, work)
}

// Question lines, of which the last may lack its newline.
#[unsafe(no_mangle)]
pub extern "C" fn yifgrun_ask_all(
    table: &[u8],
    questions: &[u8],
    answers: &mut [u8],
    work: &mut [u32],
) -> i64
    ensures { Gives (asked_all table.now questions.now answers.old work.old) result answers.new work.new }
{
    yifgrun::yifgrun_ask_all(table, questions, answers, work)
}

// The table with only the least-numbered type of each set of identical types.
#[unsafe(no_mangle)]
pub extern "C" fn yifgrun_tidy(table: &[u8], output: &mut [u8], work: &mut [u32]) -> i64
    ensures { Gives (tidied_call table.now output.old work.old) result output.new work.new }
{
    yifgrun::yifgrun_tidy(table, output, work)
}

// The words of work area that a call needs.
#[unsafe(no_mangle)]
pub extern "C" fn yifgrun_work_words() -> usize
    ensures { result ≡ work_words }
{
    yifgrun::yifgrun_work_words()
}

// The library's version as one number.
#[unsafe(no_mangle)]
pub extern "C" fn yifgrun_version() -> u32
    ensures { result ≡ version }
{
    yifgrun::yifgrun_version()
}
