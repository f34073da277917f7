// The knock that the input asks for.
ghost use Rattle.std.specs.Prelude.{◌≡◌, ◌+◌, ◌*◌};
ghost use Rattle.loopback.specs.Input.{knock_in};

use rig::knock::Knock;

// Four bytes as a number, the low byte first.
fn number_of(a: u8, b: u8, c: u8, d: u8) -> u32
    ensures { result ≡ a + b * 256 + c * 65536 + d * 16777216 }
{
    u32::from_le_bytes([a, b, c, d])
}

// Place and length from the first eight bytes; if there are fewer, a millisecond around the middle of the test picture's rings.
pub(crate) fn knock_of(input: &[u8]) -> Knock
    ensures { result ≡ knock_in input.now }
{
    if input.len() < 8 {
        return Knock {
            place: 7078104,
            long: 1069200,
        };
    }
    Knock {
        place: number_of(input[0], input[1], input[2], input[3]),
        long: number_of(input[4], input[5], input[6], input[7]),
    }
}
