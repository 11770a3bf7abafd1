//! The values that register instructions compute: numbers modulo 65,536, and signed numbers where
//! an instruction is signed.
#![tactic(auto)]

ghost use Rattle.std.specs.Prelude.{◌≡◌, ◌*ℤ◌};
ghost use Rattle.arithmetic.specs.Words.{byte_extended, complement_of, high_byte_set, signed_added, word_of, words_added};
ghost use Rattle.arithmetic.specs.Values.{SignedLaw, floor_divided, shifted, value_of};

/// An operation on the values of two registers.
#[derive(Clone, Copy, PartialEq, Eq, Debug)]
pub enum Operation {
    And,
    Or,
    Xor,
    Add,
    Subtract,
    /// Shifts by the low five bits of the second value; to the right it copies the sign.
    ShiftArithmetic,
    /// Shifts by the low five bits of the second value; to the right it brings in zeros.
    ShiftLogical,
    Less,
    LessOrEqual,
    Equal,
    LessUnsigned,
    LessOrEqualUnsigned,
    Multiply,
    /// The high half of the signed product.
    MultiplyHigh,
    /// The high half of the unsigned product.
    MultiplyHighUnsigned,
}

/// What an operation gives for the values `x` and `y` of its two registers.
#[tactic(auto, using(crate::proofs::SignedLaws::signed_law))]
pub fn value(operation: Operation, x: u16, y: u16) -> u16
    ensures value { result ≡ value_of operation x y }
    ensures signed { SignedLaw operation x y result }
{
    match operation {
        Operation::And => x & y,
        Operation::Or => x | y,
        Operation::Xor => x ^ y,
        Operation::Add => x.wrapping_add(y),
        Operation::Subtract => x.wrapping_sub(y),
        Operation::ShiftArithmetic => shift(i32::from(x.cast_signed()), x, y),
        Operation::ShiftLogical => shift(i32::from(x), x, y),
        Operation::Less => u16::from(x.cast_signed() < y.cast_signed()),
        Operation::LessOrEqual => u16::from(x.cast_signed() <= y.cast_signed()),
        Operation::Equal => u16::from(x == y),
        Operation::LessUnsigned => u16::from(x < y),
        Operation::LessOrEqualUnsigned => u16::from(x <= y),
        Operation::Multiply => x.wrapping_mul(y),
        Operation::MultiplyHigh => {
            high_half(i32::from(x.cast_signed()), i32::from(y.cast_signed()))
        }
        Operation::MultiplyHighUnsigned => high_half(i32::from(x), i32::from(y)),
    }
}

/// The word with every bit of `x` turned.
pub fn complement(x: u16) -> u16
    ensures { result ≡ complement_of x }
{
    !x
}

/// `x + n` modulo 65,536.
pub fn add_signed(x: u16, n: i8) -> u16
    ensures { result ≡ signed_added x n }
{
    x.wrapping_add_signed(i16::from(n))
}

/// `x` and `n` words of two bytes, modulo 65,536.
pub fn add_words(x: u16, n: i8) -> u16
    ensures { result ≡ words_added x n }
{
    x.wrapping_add_signed(2 * i16::from(n))
}

/// `n` modulo 65,536.
pub fn extend(n: i8) -> u16
    ensures { result ≡ word_of n }
{
    i16::from(n).cast_unsigned()
}

/// The signed number in the byte `b`, modulo 65,536.
pub fn extend_byte(b: u8) -> u16
    ensures { result ≡ byte_extended b }
{
    extend(b.cast_signed())
}

/// `x` with `n` in bits 15..8.
pub fn with_high_byte(x: u16, n: u8) -> u16
    ensures { result ≡ high_byte_set x n }
{
    u16::from(n) * 256 + x % 256
}

/// `x` to the left, or `v` to the right, by the low five bits of `y` as a signed number.
fn shift(v: i32, x: u16, y: u16) -> u16
    ensures { result ≡ shifted v x y }
{
    let low = y % 32;
    if low < 16 {
        x << low
    } else {
        word(i64::from(v >> (32 - low)))
    }
}

/// Bits 31..16 of the product of `a` and `b`.
fn high_half(a: i32, b: i32) -> u16
    ensures { result ≡ word_of (floor_divided (a *ℤ b) 65536) }
{
    word(product(a, b) >> 16)
}

fn product(a: i32, b: i32) -> i64
    ensures { result ≡ a *ℤ b }
{
    i64::from(a) * i64::from(b)
}

/// `z` modulo 65,536.
fn word(z: i64) -> u16
    ensures { result ≡ word_of z }
{
    (z.cast_unsigned() % 65536) as u16
}

#[cfg(test)]
mod tests {
    use super::*;

    #[test]
    fn shifts_by_the_low_five_bits(rt: HostRuntime) {
        assert_eq!(rt; value(Operation::ShiftArithmetic, 0x8001, 0x0010), 0xFFFF);
        assert_eq!(rt; value(Operation::ShiftLogical, 0x8001, 0x0010), 0);
        assert_eq!(rt; value(Operation::ShiftArithmetic, 0x8001, 0x0020), 0x8001);
        assert_eq!(rt; value(Operation::ShiftLogical, 0x8001, 0x0020), 0x8001);
        assert_eq!(rt; value(Operation::ShiftLogical, 0x8001, 0x000F), 0x8000);
        assert_eq!(rt; value(Operation::ShiftArithmetic, 0x8001, 0xFFFF), 0xC000);
    }

    #[test]
    fn compares_with_and_without_sign(rt: HostRuntime) {
        assert_eq!(rt; value(Operation::Less, 0xFFFF, 0), 1);
        assert_eq!(rt; value(Operation::LessUnsigned, 0xFFFF, 0), 0);
        assert_eq!(rt; value(Operation::LessOrEqual, 5, 5), 1);
        assert_eq!(rt; value(Operation::Equal, 5, 6), 0);
    }

    #[test]
    fn gives_the_high_half_of_a_product(rt: HostRuntime) {
        assert_eq!(rt; value(Operation::Multiply, 0xFFFF, 2), 0xFFFE);
        assert_eq!(rt; value(Operation::MultiplyHigh, 0xFFFF, 2), 0xFFFF);
        assert_eq!(rt; value(Operation::MultiplyHighUnsigned, 0xFFFF, 2), 1);
    }

    #[test]
    fn wraps_addresses(rt: HostRuntime) {
        assert_eq!(rt; add_words(0, -32), 0xFFC0);
        assert_eq!(rt; add_words(2, -128), 0xFF02);
        assert_eq!(rt; add_signed(0xFFFF, 1), 0);
        assert_eq!(rt; extend_byte(0x80), 0xFF80);
    }
}
