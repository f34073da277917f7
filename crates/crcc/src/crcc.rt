// The error detection code of a line (004, 6.4).
ghost use Rattle.std.specs.Prelude.{◌≡◌};
ghost use Rattle.crcc.specs.Crcc.{crc_word, crcc_words, paper_crcc, crcc_of};

// 7: no word has more than twelve bits.
#[derive(Clone, Copy, Debug, PartialEq, Eq)]
pub struct Above4095;

#[derive(Drop)]
pub struct CrccWords {
    pub crcc0: u16,
    pub crcc1: u16,
}

// The register after one more word, of which twelve bits count. The twelve bits are shifted out of the register before any bit that they
// feed back gets that far, so all of them can be computed at once (law `word_step`).
pub fn crc_word(c: u32, w: u16) -> u32
    ensures { result ≡ crc_word c w }
{
    let x = (c ^ w as u32) % 4096;
    c / 4096 ^ x * 64 ^ x * 4 ^ x * 2
}

// The CRCC of a run of words: the register, of which bit i is CRCCi.
pub fn crcc_of(words: &[u16]) -> Result<u32, Above4095>
    ensures { paper_crcc result ≡ crcc_of words.now }
{
    let mut c = 0;
    for &w in words {
        if 4095 < w {
            return Err(Above4095);
        }
        c = crc_word(c, w);
    }
    Ok(c)
}

// The two words that carry a register, of which eighteen bits count.
pub fn crcc_words(c: u32) -> CrccWords
    ensures { result ≡ crcc_words c }
{
    CrccWords {
        crcc0: word::guard::guarded((c % 512) as u16 * 4),
        crcc1: word::guard::guarded((c / 512 % 512) as u16 * 4),
    }
}
