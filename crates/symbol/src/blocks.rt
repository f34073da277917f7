// The blocks of the code as its tables print them, the bit sent first on the left: abcdei of the 5b/6b table, fghj of the 3b/4b table (ANSI
// INCITS 230; IEEE 802.3, tables 36-1 and 36-2). Each table has a column for negative (-) and one for positive (+) disparity before the block.
ghost use Rattle.std.specs.Prelude.{◌≡◌};
ghost use Rattle.symbol.specs.Blocks.{six_bits, six_bits_k28, four_bits, four_bits_special};
ghost use Rattle.symbol.specs.Blocks.{alternate, alternate_at};

use crate::disparity::Disparity;

// 5b/6b, x = 0 to 31, at negative disparity.
const SIX_BITS_NEGATIVE: [u16; 32] = [
    0b100111, // D0-
    0b011101, // D1-
    0b101101, // D2-
    0b110001, // D3-
    0b110101, // D4-
    0b101001, // D5-
    0b011001, // D6-
    0b111000, // D7-
    0b111001, // D8-
    0b100101, // D9-
    0b010101, // D10-
    0b110100, // D11-
    0b001101, // D12-
    0b101100, // D13-
    0b011100, // D14-
    0b010111, // D15-
    0b011011, // D16-
    0b100011, // D17-
    0b010011, // D18-
    0b110010, // D19-
    0b001011, // D20-
    0b101010, // D21-
    0b011010, // D22-
    0b111010, // D23-
    0b110011, // D24-
    0b100110, // D25-
    0b010110, // D26-
    0b110110, // D27-
    0b001110, // D28-
    0b101110, // D29-
    0b011110, // D30-
    0b101011, // D31-
];

// The same at positive disparity.
const SIX_BITS_POSITIVE: [u16; 32] = [
    0b011000, // D0+
    0b100010, // D1+
    0b010010, // D2+
    0b110001, // D3+
    0b001010, // D4+
    0b101001, // D5+
    0b011001, // D6+
    0b000111, // D7+
    0b000110, // D8+
    0b100101, // D9+
    0b010101, // D10+
    0b110100, // D11+
    0b001101, // D12+
    0b101100, // D13+
    0b011100, // D14+
    0b101000, // D15+
    0b100100, // D16+
    0b100011, // D17+
    0b010011, // D18+
    0b110010, // D19+
    0b001011, // D20+
    0b101010, // D21+
    0b011010, // D22+
    0b000101, // D23+
    0b001100, // D24+
    0b100110, // D25+
    0b010110, // D26+
    0b001001, // D27+
    0b001110, // D28+
    0b010001, // D29+
    0b100001, // D30+
    0b010100, // D31+
];

// 3b/4b of a byte, y = 0 to 7, with the primary form of .7, at negative disparity.
const FOUR_BITS_NEGATIVE: [u16; 8] = [
    0b1011, // D.x.0-
    0b1001, // D.x.1-
    0b0101, // D.x.2-
    0b1100, // D.x.3-
    0b1101, // D.x.4-
    0b1010, // D.x.5-
    0b0110, // D.x.6-
    0b1110, // D.x.7-
];

// The same at positive disparity.
const FOUR_BITS_POSITIVE: [u16; 8] = [
    0b0100, // D.x.0+
    0b1001, // D.x.1+
    0b0101, // D.x.2+
    0b0011, // D.x.3+
    0b0010, // D.x.4+
    0b1010, // D.x.5+
    0b0110, // D.x.6+
    0b0001, // D.x.7+
];

// 3b/4b of a special character, y = 0 to 7, at negative disparity.
const FOUR_BITS_SPECIAL_NEGATIVE: [u16; 8] = [
    0b1011, // K.x.0-
    0b0110, // K.x.1-
    0b1010, // K.x.2-
    0b1100, // K.x.3-
    0b1101, // K.x.4-
    0b0101, // K.x.5-
    0b1001, // K.x.6-
    0b0111, // K.x.7-
];

// The same at positive disparity.
const FOUR_BITS_SPECIAL_POSITIVE: [u16; 8] = [
    0b0100, // K.x.0+
    0b1001, // K.x.1+
    0b0101, // K.x.2+
    0b0011, // K.x.3+
    0b0010, // K.x.4+
    0b1010, // K.x.5+
    0b0110, // K.x.6+
    0b1000, // K.x.7+
];

// The x for which a byte x.7 takes the alternate form of .7, by the disparity before the four bits.
const ALTERNATE_AT_NEGATIVE: [u16; 3] = [17, 18, 20];

const ALTERNATE_AT_POSITIVE: [u16; 3] = [11, 13, 14];

// The six bits of D0 to D31. A function for each column, under the name that the tables give it.
pub fn six_bits(d: Disparity) -> [u16; 32]
    ensures { result ≡ six_bits d }
{
    match d {
        Disparity::Negative => SIX_BITS_NEGATIVE,
        Disparity::Positive => SIX_BITS_POSITIVE,
    }
}

// The six bits of K28.
pub fn six_bits_k28(d: Disparity) -> u16
    ensures { result ≡ six_bits_k28 d }
{
    match d {
        Disparity::Negative => 0b001111,
        Disparity::Positive => 0b110000,
    }
}

// The four bits of a byte, with the primary form of .7.
pub fn four_bits(d: Disparity) -> [u16; 8]
    ensures { result ≡ four_bits d }
{
    match d {
        Disparity::Negative => FOUR_BITS_NEGATIVE,
        Disparity::Positive => FOUR_BITS_POSITIVE,
    }
}

// The alternate form of .7.
pub fn alternate(d: Disparity) -> u16
    ensures { result ≡ alternate d }
{
    match d {
        Disparity::Negative => 0b0111,
        Disparity::Positive => 0b1000,
    }
}

// The x for which a byte x.7 takes it.
pub fn alternate_at(d: Disparity) -> [u16; 3]
    ensures { result ≡ alternate_at d }
{
    match d {
        Disparity::Negative => ALTERNATE_AT_NEGATIVE,
        Disparity::Positive => ALTERNATE_AT_POSITIVE,
    }
}

// The four bits of a special character.
pub fn four_bits_special(d: Disparity) -> [u16; 8]
    ensures { result ≡ four_bits_special d }
{
    match d {
        Disparity::Negative => FOUR_BITS_SPECIAL_NEGATIVE,
        Disparity::Positive => FOUR_BITS_SPECIAL_POSITIVE,
    }
}
