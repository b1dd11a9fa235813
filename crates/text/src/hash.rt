// The hash of a name, by which most names that differ are told apart without comparing them.
ghost use Rattle.std.specs.Prelude.{◌≡◌, ◌<◌, drop};
ghost use Rattle.objects.specs.Rows.{member_at};
ghost use Rattle.text.specs.Hash.{hashes, hash_rest, hash_from};

use crate::compare::{four, span};
use objects::ObjKey;
use objects::rows::member_word;

// Values of a hash.
pub const HASHES: u64 = 4_294_967_296;

// The hash of the bytes from a place on, one at a time.
fn hash_rest(name: &[u8], at: usize, before: u64) -> u64
    requires { before < hashes }
    ensures value { result ≡ hash_rest before (drop at name.now) }
    ensures upper_bound { result < hashes }
{
    let mut h = before;
    for i in at..name.len() {
        h = (h + u64::from(name[i])) * 1_103_515 % HASHES;
    }
    h
}

// By a while, since what is left begins where it ends.
pub fn hash(name: &[u8]) -> u64
    ensures value { result ≡ hash_from 0 name.now }
    ensures upper_bound { result < hashes }
{
    let mut h: u64 = 0;
    let mut i: usize = 0;
    while 4 <= name.len() - i {
        h = (h + four(name, i)) * 1_103_515 % HASHES;
        i += 4;
    }
    hash_rest(name, i, h)
}

// That of a member's name.
pub fn name_hash(text: &[u8], rows: &[u32], m: ObjKey) -> u64
    ensures value { result ≡ hash_from 0 (member_at text.now rows.now m).name }
    ensures upper_bound { result < hashes }
{
    hash(span(
        text,
        member_word(rows, m, 0) as usize,
        member_word(rows, m, 1) as usize,
    ))
}
