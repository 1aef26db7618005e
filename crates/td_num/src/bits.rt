//! Some bits of a number (3D manual, "Bit fields").

ghost use Rattle.std.specs.Prelude.{◌≡◌, ◌/◌, ◌%◌, ◌^◌};

/// `width` bits of a number, from bit `low` on, bit 0 being the one of least weight. Bits past the 64th are zeros.
pub fn bits(value: u64, low: u32, width: u32) -> u64
    ensures { result ≡ value / 2 ^ low % 2 ^ width }
{
    low_bits(high_bits(value, low), width)
}

/// The bits from one on.
fn high_bits(value: u64, low: u32) -> u64
    ensures { result ≡ value / 2 ^ low }
{
    if low < 64 { value >> low } else { 0 }
}

/// The lowest bits.
fn low_bits(value: u64, width: u32) -> u64
    ensures { result ≡ value % 2 ^ width }
{
    if width < 64 {
        value % (1 << width)
    } else {
        value
    }
}
