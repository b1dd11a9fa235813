// 14, package out of order: P lines strictly ascend by the bytes of their paths, so that a package is known by its path.
#![tactic(auto)]

ghost use Rattle.std.specs.Prelude.{◌≡◌, ◌-◌, ◌<◌};
ghost use Rattle.objects.specs.Table.{package_key};
ghost use Rattle.objects.specs.Rows.{path_read, table_of};
ghost use Rattle.objects.specs.Types.{found};
ghost use Rattle.objects.specs.Laid.{Laid};
ghost use Rattle.text.specs.Bytes.{below_bytes};
ghost use Rattle.rules.specs.Stages.{first_unordered};

use objects::PackageKey;
use objects::rows::{package_count, package_word};
use text::compare::{order, span};

// The path of a package, as it stands in the text.
fn path_of<'a>(text: &'a [u8], rows: &[u32], p: PackageKey) -> &'a [u8]
    ensures { result.now ≡ path_read text.now rows.now p }
{
    span(
        text,
        package_word(rows, p, 0) as usize,
        package_word(rows, p, 1) as usize,
    )
}

// Whether the path of a package is above that of the package just before it.
fn ascends(text: &[u8], rows: &[u32], p: u32) -> bool
    requires { 0 < p }
    ensures { result ≡ below_bytes (path_read text.now rows.now (package_key (p - 1))) (path_read text.now rows.now (package_key p)) }
{
    let previous = p - 1;
    let before = path_of(text, rows, PackageKey(previous));
    let path = path_of(text, rows, PackageKey(p));
    order(before, path).is_lt()
}

// The first P line that does not ascend. The first line of the text is no P line, so that package p stands on line p + 2.
pub fn unordered(text: &[u8], rows: &[u32]) -> Option<u32>
    requires { Laid rows.now }
    ensures { found result ≡ first_unordered (table_of text.now rows.now).packages }
{
    for p in 1..package_count(rows) {
        if !ascends(text, rows, p) {
            return Some(p + 2);
        }
    }
    None
}
