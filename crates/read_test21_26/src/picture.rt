// Test 25: whether every word of a picture may be a sample's.
ghost use Rattle.std.specs.Prelude.{◌≡◌, ◌+◌, ◌<◌};
ghost use Rattle.read_test21_26.specs.Inside.Picture.{all_allowed};

// Whether all may. The loop has one exit, so that it takes many at a time.
fn each_allowed(depth: u8, rows: &[u16]) -> bool
    ensures { result ≡ all_allowed depth rows.now }
{
    let mut all = true;
    for w in rows {
        all &= packing::sample::allowed_word(depth, *w);
    }
    all
}

// The same, with a depth that is a constant in either call, so that no iteration tests it.
pub fn all_allowed(depth: u8, rows: &[u16]) -> bool
    ensures { result ≡ all_allowed depth rows.now }
{
    if depth == 10 {
        return each_allowed(10, rows);
    }
    each_allowed(12, rows)
}
