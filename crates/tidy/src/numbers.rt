// The number that each type gets when only the least twins remain.
ghost use Rattle.std.specs.Prelude.{◌≡◌, ◌≤◌, length};
ghost use Rattle.tidy.specs.Numbers.{Backward, own_below, NewNumbers};

// THE NEW NUMBER OF EACH TYPE: how many remain before its twin; and how many remain in all.
pub fn new_numbers(twins: &[u32], numbers: &mut [u32], count: u32) -> u32
    requires { (count ≤ length twins.now) × (count ≤ length numbers.old) × Backward twins.now count }
    ensures { (result ≡ own_below twins.now count) × NewNumbers twins.now count numbers.new }
{
    let mut left: u32 = 0;
    for t in 0..count {
        let u = twins[t as usize];
        if u == t {
            numbers[t as usize] = left;
            left += 1;
        } else {
            let n = numbers[u as usize];
            numbers[t as usize] = n;
        }
    }
    left
}
