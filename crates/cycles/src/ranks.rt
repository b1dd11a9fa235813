// Ranks that fall along contents. 0 is none yet; a type all of whose contents have a rank gets the next one.
ghost use Rattle.std.specs.Prelude.{◌≡◌, ◌<◌};
ghost use Rattle.objects.specs.Rows.{type_count};
ghost use Rattle.objects.specs.Laid.{Laid};
ghost use Rattle.rules.specs.Library.{rank_read};
ghost use Rattle.cycles.specs.Contents.{Refers};
ghost use Rattle.cycles.specs.Ranking.{Ranking, Cleared, FirstWaiting, AllRanked, Given, Passing, Peeled};

use crate::contents::{content, content_total};
use objects::TypeKey;
use objects::rows::{type_count, type_word};
use objects::writers::put_rank;

// Which no reader of the table looks at.
pub fn rank(rows: &[u32], t: TypeKey) -> u32
    ensures { result ≡ rank_read rows.now t }
{
    type_word(rows, t, 7)
}

fn clear(rows: &mut [u32])
    requires { Laid rows.old }
    ensures { Cleared rows.old (type_count rows.old) rows.new }
{
    for t in 0..type_count(rows) {
        put_rank(rows, TypeKey(t), 0);
    }
}

// The place of the first content of t, from one on, that has no rank.
pub fn first_waiting(rows: &[u32], t: TypeKey, from: u32) -> Option<u32>
    requires { Laid rows.now × (t.0 < type_count rows.now) }
    ensures { FirstWaiting rows.now t from result }
{
    for i in from..content_total(rows, t) {
        if rank(rows, content(rows, t, i)) == 0 {
            return Some(i);
        }
    }
    None
}

// Whether all that t contains has a rank.
fn all_ranked(rows: &[u32], t: TypeKey) -> bool
    requires { Laid rows.now × (t.0 < type_count rows.now) }
    ensures { AllRanked rows.now t result }
{
    first_waiting(rows, t, 0).is_none()
}

// The type gets the rank if it has none and may have it. Answers the next.
pub fn give(rows: &mut [u32], next: u32, t: TypeKey) -> u32
    requires { Ranking rows.old next × (t.0 < type_count rows.old) }
    ensures { Given rows.old next t rows.new result }
{
    if rank(rows, t) != 0 {
        return next;
    }
    if all_ranked(rows, t) {
        put_rank(rows, t, next);
        next + 1
    } else {
        next
    }
}

// Types mostly refer to smaller numbers, so one pass in ascending order gives nearly all ranks.
fn pass(rows: &mut [u32], next: u32) -> u32
    requires { Ranking rows.old next }
    ensures { Passing rows.old next (type_count rows.old) rows.new result }
{
    let mut after = next;
    for t in 0..type_count(rows) {
        after = give(rows, after, TypeKey(t));
    }
    after
}

// One pass gives most ranks, then the types that are left are gone through with their contents first: each once, linear in the contents. A last pass finds
// that no type is left that may have a rank.
pub fn peel(rows: &mut [u32])
    requires { Laid rows.old × Refers rows.old }
    ensures { Peeled rows.old rows.new }
{
    clear(rows);
    let most = pass(rows, 1);
    let mut last: u32 = 0;
    let mut next = crate::climb::rest(rows, most);
    // a `while`, since it goes on as long as a pass gives ranks
    while last < next {
        last = next;
        next = pass(rows, next);
    }
}
