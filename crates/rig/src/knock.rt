// A knocked plug: symbols without light.
ghost use Rattle.std.specs.Prelude.{◌≡◌, ◌+◌, ◌≤◌, length};
ghost use Rattle.rig.specs.Knock.{struck};
ghost use Rattle.rig.specs.Inside.Knock.{knocked};

// The symbol of the frame from which there is no light, and for how many symbols.
#[derive(Clone, Copy)]
pub struct Knock {
    pub place: u32,
    pub long: u32,
}

// Whether symbol q of the frame is struck.
fn is_struck(k: Knock, q: u64) -> bool
    ensures { result ≡ struck k q }
{
    let begin = k.place as u64;
    begin <= q && q < begin + k.long as u64
}

// The symbols of a piece that begins at place `from` of the frame: those struck become 0.
pub(crate) fn strike(k: Knock, from: usize, symbols: &mut [u16])
    requires { from + length symbols.old ≤ 21384000 }
    ensures { symbols.new ≡ knocked k from symbols.old }
{
    for (i, symbol) in symbols.iter_mut().enumerate() {
        if is_struck(k, (from + i) as u64) {
            *symbol = 0;
        }
    }
}
