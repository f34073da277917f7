// Symbols as bytes.
ghost use Rattle.std.specs.Prelude.{◌≡◌, ◌*◌, length};
ghost use Rattle.generate.specs.Generated.{low_first};

// Two bytes for each symbol, low byte first.
pub(crate) fn put_bytes(symbols: &[u16], out: &mut [u8])
    requires { length out.old ≡ 2 * length symbols.now }
    ensures { out.new ≡ low_first symbols.now }
{
    for (i, symbol) in symbols.iter().enumerate() {
        let [low, high] = symbol.to_le_bytes();
        out[2 * i] = low;
        out[2 * i + 1] = high;
    }
}
