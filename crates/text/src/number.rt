// Numbers in digits, put as text.
ghost use Rattle.std.specs.Prelude.{◌≡◌, length};
ghost use Rattle.text.specs.Number.{decimal, hexadecimal};
ghost use Rattle.text.specs.Put.{end_of, put_of};

// In as few decimal digits as it takes.
pub fn put_decimal(n: u64, out: &mut [u8], at: usize) -> usize
    ensures end { result ≡ end_of (length out.old) at (decimal n) }
    ensures written { out.new ≡ put_of out.old at (decimal n) }
{
    let mut text = [0u8; 20];
    let k = io::decimal(n, &mut text);
    crate::put::put_text(&text[..k], out, at)
}

// In four hexadecimal digits.
pub fn put_hexadecimal(n: u16, out: &mut [u8], at: usize) -> usize
    ensures end { result ≡ end_of (length out.old) at (hexadecimal n) }
    ensures written { out.new ≡ put_of out.old at (hexadecimal n) }
{
    let mut text = [0u8; 16];
    let k = io::hex(n as u64, 4, &mut text);
    crate::put::put_text(&text[..k], out, at)
}
