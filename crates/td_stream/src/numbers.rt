//! Numbers by their digits in base 256.

ghost use Rattle.std.specs.Prelude.{◌≡◌, ℕ, ◌+◌, ◌-◌, ◌*◌, ◌/◌, ◌%◌, ◌^◌, ◌<◌, ◌≤◌, List};
ghost use Rattle.td_num.specs.Numbers.{falling_at};
ghost use Rattle.td_stream.specs.Digits.{HasDigits};

/// So many digits of a word, from this one on.
pub(crate) fn digits_of(word: u64, from: u64, count: u32) -> u64
    requires some { 0 < count }
    requires inside { from + count ≤ 8 }
    ensures is { result ≡ word / 2 ^ (8 * from) % 2 ^ (8 * count) }
{
    (word >> (8 * from)) & (u64::MAX >> (64 - 8 * count))
}

/// The number of which `low` has the lowest digits, so many, and `high` the others.
pub(crate) fn joined(low: u64, high: u64, count: u32, more: u32) -> u64
    requires some { 0 < count }
    requires others { 0 < more }
    requires few { count + more ≤ 8 }
    requires low { low < 2 ^ (8 * count) }
    requires high { high < 2 ^ (8 * more) }
    ensures is { result ≡ high * 2 ^ (8 * count) + low }
    ensures fits { result < 2 ^ (8 * (count + more)) }
{
    (high << (8 * count)) + low
}

/// The number with the digits of another, so many, in the other order.
pub(crate) fn falling(number: u64, count: u32) -> u64
    requires some { 0 < count }
    requires few { count ≤ 8 }
    requires fits { number < 2 ^ (8 * count) }
    ensures is { (b : List ℕ) (p : ℕ) → HasDigits b p count number → result ≡ falling_at b p count }
{
    number.swap_bytes() >> (64 - 8 * count)
}
