// Refusal 10 over the rows of a table: "A type contains itself by value". Where no type does, the rows are left with the rank that exists because of it.
#![tactic(auto)]

ghost use Rattle.objects.specs.Laid.{Laid};
ghost use Rattle.cycles.specs.Contents.{Refers};
ghost use Rattle.cycles.specs.Contained.{Contained};

pub mod contents; // what a type contains by value, one step
pub mod climb; // ranks given to contents first
pub mod ranks; // ranks that fall along contents
pub mod search; // whether a type contains itself

// The line named is that of the least type number on any cycle. Ranks come first: where every type gets one, no search is made.
pub fn containing(rows: &mut [u32]) -> Option<u32>
    requires { Laid rows.old × Refers rows.old }
    ensures { Contained rows.old result rows.new }
{
    crate::ranks::peel(rows);
    crate::search::first_back(rows)
}
