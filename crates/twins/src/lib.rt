// The least twin of each type of a loaded table, for all types at once. All types begin in one class. A round splits each class: types stay together if nothing
// tells them apart and their parts are together. What no round splits any more are the sets of identical types. Rounds are as many as parts are nested, and never
// more than there are types; a round is linear in the rows, up to what a bucket holds besides.
#![tactic(auto)]

ghost use Rattle.std.specs.Prelude.{◌≡◌, ◌≤◌, length};
ghost use Rattle.objects.specs.Rows.{type_count};
ghost use Rattle.rules.specs.Library.{Library};
ghost use Rattle.twins.specs.Labels.{Renewed, Twinned};

use crate::rounds::refine;
use objects::bounds::MAX_TYPES;
use objects::rows::type_count;
use pair_marks::marks::clear;

pub mod agreeing; // when two types stay together
pub mod buckets; // a hash of what is compared
pub mod rounds; // one round

// The first n labels become the fresh ones; true if one of them is another.
fn renew(labels: &mut [u32], fresh: &[u32], n: usize) -> bool
    requires { (n ≤ length labels.old) × (n ≤ length fresh.now) }
    ensures renewed { Renewed labels.old fresh.now labels.new n result }
    ensures labels_len_unchanged { length labels.new ≡ length labels.old }
{
    let changed = labels[..n] != fresh[..n];
    labels[..n].copy_from_slice(&fresh[..n]);
    changed
}

// Round after round, until none splits a class.
fn settle(text: &[u8], rows: &[u32], labels: &mut [u32], fresh: &mut [u32])
    requires library { Library text.now rows.now }
    requires rows_in_bounds { (type_count rows.now ≤ length labels.old) × (type_count rows.now ≤ length fresh.old) }
    ensures { Twinned text.now rows.now labels.new }
{
    clear(labels);
    let n = type_count(rows) as usize;
    loop {
        refine(text, rows, labels, fresh);
        if !renew(labels, fresh, n) {
            return;
        }
    }
}

// THE LEAST TWIN OF EACH TYPE.
pub fn least_twins(text: &[u8], rows: &[u32], twins: &mut [u32])
    requires { Library text.now rows.now × (type_count rows.now ≤ length twins.old) }
    ensures { Twinned text.now rows.now twins.new }
{
    let mut fresh = [0u32; MAX_TYPES];
    settle(text, rows, twins, &mut fresh);
}
