// Characters to symbols through the lent tables, with the running disparity kept as its offset in them.
ghost use Rattle.std.specs.Prelude.{◌≡◌, ◌<◌};
ghost use Rattle.encoder.specs.Inside.Tables.{offset_of, of_offset};
ghost use Rattle.send.specs.Inside.Put.{coded, three_of};

use encoder::tables::Tables;

#[derive(Drop)]
pub(crate) struct Coded {
    pub(crate) symbol: u16,
    pub(crate) offset: usize,
}

// The symbols of three characters, and the offset after them.
#[derive(Drop)]
pub(crate) struct Three {
    pub(crate) first: u16,
    pub(crate) second: u16,
    pub(crate) third: u16,
    pub(crate) offset: usize,
}

// The symbol of character c at offset d, and the offset after it.
pub(crate) fn code(tables: Tables, d: usize, c: u16) -> Coded
    requires d_value { d ≡ offset_of (of_offset d) }
    requires c_bound { c < 268 }
    ensures { result ≡ coded (of_offset d) c }
{
    let flip = tables.flips[c as usize];
    Coded {
        symbol: tables.symbols[d + c as usize],
        offset: d ^ flip as usize,
    }
}

// The symbols of characters x, y and z in turn.
pub(crate) fn code_three(tables: Tables, d: usize, x: u16, y: u16, z: u16) -> Three
    requires d_value { d ≡ offset_of (of_offset d) }
    requires x_bound { x < 268 }
    requires y_bound { y < 268 }
    requires z_bound { z < 268 }
    ensures { result ≡ three_of (of_offset d) x y z }
{
    let first = code(tables, d, x);
    let second = code(tables, first.offset, y);
    let third = code(tables, second.offset, z);
    Three {
        first: first.symbol,
        second: second.symbol,
        third: third.symbol,
        offset: third.offset,
    }
}
