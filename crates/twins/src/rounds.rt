// One round: classes are split by what agrees under the labels so far.
ghost use Rattle.std.specs.Prelude.{◌≡◌, ◌<◌, ◌≤◌, length, replicate};
ghost use Rattle.objects.specs.Rows.{type_count, table_of};
ghost use Rattle.rules.specs.Library.{Library};
ghost use Rattle.twins.specs.Labels.{Fit, Classed};
ghost use Rattle.twins.specs.Chains.{buckets, bucket_of, Covers, Linked};

use crate::agreeing::agree;
use crate::buckets::{BUCKETS, bucket};
use objects::TypeKey;
use objects::bounds::MAX_TYPES;
use objects::rows::type_count;

// A type before t that agrees with t, or t if there is none: along the chain of its bucket, from the link `from` on.
fn first_fit(text: &[u8], rows: &[u32], labels: &[u32], links: &[u32], from: u32, t: TypeKey) -> u32
    requires library { Library text.now rows.now }
    requires t_bound { (t.0 < type_count rows.now) × (type_count rows.now ≤ length labels.now) × (type_count rows.now ≤ length links.now) }
    requires linked { Linked (table_of text.now rows.now) labels.now links.now t.0 }
    requires covers { Covers (table_of text.now rows.now) labels.now from t.0 (bucket_of (table_of text.now rows.now) labels.now t) }
    ensures { Fit (table_of text.now rows.now) labels.now t.0 result }
{
    let mut c = from;
    // no range gives the places: a chain of links is walked. They are words, 0 at the end, since options take twice the fixed memory.
    while 0 < c {
        let u = c - 1;
        if agree(text, rows, labels, TypeKey(u), t) {
            return u;
        }
        c = links[u as usize];
    }
    t.0
}

// The fresh label of each type, in chains that are empty at first.
fn split(
    text: &[u8],
    rows: &[u32],
    labels: &[u32],
    fresh: &mut [u32],
    heads: &mut [u32],
    links: &mut [u32],
)
    requires library { Library text.now rows.now }
    requires rows_in_bounds { (type_count rows.now ≤ length labels.now) × (type_count rows.now ≤ length fresh.old) × (type_count rows.now ≤ length links.old) }
    requires buckets_in_bounds { (buckets ≤ length heads.old) × (heads.old ≡ replicate (length heads.old) 0) }
    ensures classed { Classed (table_of text.now rows.now) labels.now fresh.new (type_count rows.now) }
    ensures fresh_len_unchanged { length fresh.new ≡ length fresh.old }
{
    let n = type_count(rows);
    for t in 0..n {
        let b = bucket(text, rows, labels, TypeKey(t));
        let link = heads[b];
        let u = first_fit(text, rows, labels, links, link, TypeKey(t));
        fresh[t as usize] = t;
        let l = fresh[u as usize];
        fresh[t as usize] = l;
        links[t as usize] = link;
        heads[b] = t + 1;
    }
}

// The same with chains of its own.
pub fn refine(text: &[u8], rows: &[u32], labels: &[u32], fresh: &mut [u32])
    requires library { Library text.now rows.now }
    requires rows_in_bounds { (type_count rows.now ≤ length labels.now) × (type_count rows.now ≤ length fresh.old) }
    ensures classed { Classed (table_of text.now rows.now) labels.now fresh.new (type_count rows.now) }
    ensures fresh_len_unchanged { length fresh.new ≡ length fresh.old }
{
    let mut heads = [0u32; BUCKETS];
    let mut links = [0u32; MAX_TYPES];
    split(text, rows, labels, fresh, &mut heads, &mut links);
}
