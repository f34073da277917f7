// The guard bit of line number and CRCC words (004, tables 8 and 9).
ghost use Rattle.std.specs.Prelude.{◌≡◌};
ghost use Rattle.word.specs.Word.{guarded as guardedOf};

// The low eleven bits, with bit 11 the opposite of bit 10.
pub fn guarded(w: u16) -> u16
    ensures { result ≡ guardedOf w }
{
    (1 - w / 1024 % 2) * 2048 + w % 2048
}
