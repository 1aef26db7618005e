//! Numbers as hexadecimal digits.

ghost use Rattle.std.specs.Prelude.{◌≡◌, ◌<◌, slice_index, codes};
ghost use Rattle.td_report.specs.Report.{hex_digit, hex_digits};

#[tactic(auto, unfolding(crate::specs::Report::hex_digit))]
fn digit_of(value: u64) -> u8
    requires { value < 16 }
    ensures { result ≡ hex_digit value }
{
    b"0123456789abcdef"[value as usize]
}

/// The sixteen digits of a number, the one of most weight first.
#[tactic(auto, unfolding(crate::specs::Report::hex_digits))]
pub fn digits_of(value: u64) -> [u8; 16]
    ensures { result ≡ hex_digits 16 value }
{
    let mut digits = [0u8; 16];
    let mut rest = value;
    for count in 0..16usize {
        digits[15 - count] = digit_of(rest % 16);
        rest /= 16;
    }
    digits
}

/// The two digits of a byte, the one of most weight first.
#[tactic(auto, unfolding(crate::specs::Report::hex_digits))]
pub(crate) fn two_digits_of(value: u8) -> [u8; 2]
    ensures { result ≡ hex_digits 2 value }
{
    let value = u64::from(value);
    [digit_of(value / 16), digit_of(value % 16)]
}
