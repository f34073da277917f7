// Two words as three bytes, and back (004, 7.1; document 01, "A span").
ghost use Rattle.std.specs.Prelude.{◌≡◌};
ghost use Rattle.packing.specs.Bytes.{bytes_of, unpacked, paper_packed, packed_of};

#[derive(Drop)]
pub struct ThreeBytes {
    pub first: u8,
    pub second: u8,
    pub third: u8,
}

#[derive(Clone, Copy)]
pub struct TwoWords {
    pub a: u16,
    pub b: u16,
}

// 7: no word has more than twelve bits.
#[derive(Clone, Copy, Debug, PartialEq, Eq)]
pub struct Above4095;

// The bytes of two words; twelve bits of each count.
pub fn bytes_of(a: u16, b: u16) -> ThreeBytes
    ensures { result ≡ bytes_of a b }
{
    ThreeBytes {
        first: (a % 256) as u8,
        second: (b % 16 * 16 + a / 256 % 16) as u8,
        third: (b / 16 % 256) as u8,
    }
}

// The bytes of two words.
pub fn pack(a: u16, b: u16) -> Result<ThreeBytes, Above4095>
    ensures { paper_packed result ≡ packed_of a b }
{
    if 4095 < a {
        return Err(Above4095);
    }
    if 4095 < b {
        return Err(Above4095);
    }
    Ok(bytes_of(a, b))
}

// The words of three bytes: taken as one number, the second word is above the first.
pub fn unpack(t: ThreeBytes) -> TwoWords
    ensures { result ≡ unpacked t }
{
    let both = t.first as u32 + t.second as u32 * 256 + t.third as u32 * 65536;
    TwoWords {
        a: (both % 4096) as u16,
        b: (both / 4096) as u16,
    }
}
