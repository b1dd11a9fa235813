// Tests of one byte.
ghost use Rattle.std.specs.Prelude.{◌≡◌};
ghost use Rattle.text.specs.Bytes.{between, is_digit, is_name_byte};

pub fn within(low: u64, high: u64, b: u64) -> bool
    ensures { result ≡ between low high b }
{
    low <= b && b <= high
}

pub fn digit(b: u64) -> bool
    ensures { result ≡ is_digit b }
{
    within(48, 57, b)
}

// A letter, a digit or `_`. Most are small letters, so these are tried first, and then the others in the order of their values.
pub fn name_byte(b: u64) -> bool
    ensures { result ≡ is_name_byte b }
{
    if within(97, 122, b) {
        return true;
    }
    if b < 58 {
        return 48 <= b;
    }
    if b < 91 {
        return 65 <= b;
    }
    b == 95
}
