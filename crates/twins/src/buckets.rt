// The bucket of a type: a hash of what two types are compared by.
ghost use Rattle.std.specs.Prelude.{◌≡◌, ◌<◌, ◌≤◌, length};
ghost use Rattle.objects.specs.Rows.{type_count, table_of};
ghost use Rattle.objects.specs.Table.{kind_at, members_of};
ghost use Rattle.text.specs.Hash.{hashes};
ghost use Rattle.rules.specs.Library.{Library};
ghost use Rattle.rules.specs.Identity.{parts};
ghost use Rattle.twins.specs.Chains.{mixed, mixed_labels, first_name, buckets, bucket_of};

use objects::bounds::MAX_TYPES;
use objects::kinds::STRUCT;
use objects::rows::{first_member, kind_number, member_total, type_word};
use objects::{ObjKey, TypeKey};
use text::hash::{HASHES, name_hash};
use type_parts::parts::{own_number, part_count, part_in};

// As many as there may be types.
pub const BUCKETS: usize = MAX_TYPES;

// A hash with a number more.
fn mix(h: u64, x: u32) -> u64
    requires { h < hashes }
    ensures { (result ≡ mixed h x) × (result < hashes) }
{
    (h + u64::from(x)) * 1_103_515 % HASHES
}

// With the labels of the parts of t more.
fn mix_parts(text: &[u8], rows: &[u32], labels: &[u32], t: TypeKey, before: u64) -> u64
    requires library { Library text.now rows.now }
    requires t_bound { (t.0 < type_count rows.now) × (type_count rows.now ≤ length labels.now) × (before < hashes) }
    ensures { (result ≡ mixed_labels labels.now before (parts (kind_at (table_of text.now rows.now) t))) × (result < hashes) }
{
    let n = part_count(rows, t);
    let k = type_word(rows, t, 0);
    let first = first_member(rows, t);
    let mut h = before;
    for i in 0..n {
        let p = part_in(rows, t, k, first, i);
        h = mix(h, labels[p.0 as usize]);
    }
    h
}

// The hash of the name of its first member; 0 if it has none.
fn first_name(text: &[u8], rows: &[u32], t: TypeKey) -> u64
    requires { Library text.now rows.now × (t.0 < type_count rows.now) }
    ensures { (result ≡ first_name (members_of (kind_at (table_of text.now rows.now) t))) × (result < hashes) }
{
    if kind_number(rows, t) < STRUCT || member_total(rows, t) == 0 {
        return 0;
    }
    name_hash(text, rows, ObjKey(first_member(rows, t)))
}

// The bucket of t.
pub fn bucket(text: &[u8], rows: &[u32], labels: &[u32], t: TypeKey) -> usize
    requires library { Library text.now rows.now }
    requires t_bound { (t.0 < type_count rows.now) × (type_count rows.now ≤ length labels.now) }
    ensures { (result ≡ bucket_of (table_of text.now rows.now) labels.now t) × (result < buckets) }
{
    let name = first_name(text, rows, t);
    let kind = mix(name, kind_number(rows, t));
    let own = mix(kind, own_number(rows, t));
    let label = mix(own, labels[t.0 as usize]);
    let h = mix_parts(text, rows, labels, t, label);
    h as usize % BUCKETS
}
