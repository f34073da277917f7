// The entries of the decoding table for a loop, which keeps a disparity as the entry bit that says whether a symbol is legal at it.
ghost use Rattle.std.specs.Prelude.{◌≡◌};
ghost use Rattle.decoder.specs.Inside.Mask.{mask_of, of_mask, legal_by, after_by};

use symbol::disparity::Disparity;

// The bit for a disparity.
pub fn mask_of(d: Disparity) -> u16
    ensures { result ≡ mask_of d }
{
    match d {
        Disparity::Negative => 512,
        Disparity::Positive => 1024,
    }
}

// The disparity of a bit.
pub fn disparity_of(m: u16) -> Disparity
    ensures { result ≡ of_mask m }
{
    if m == 512 {
        return Disparity::Negative;
    }
    Disparity::Positive
}

// Whether an entry has the bit.
pub fn legal_by(m: u16, e: u16) -> bool
    ensures { result ≡ legal_by m e }
{
    e & m != 0
}

// The bit after an entry's symbol: bits 11 and 12, moved to 9 and 10, flip it.
pub fn after_by(m: u16, e: u16) -> u16
    ensures { result ≡ after_by m e }
{
    m ^ e / 4 & 1536
}
