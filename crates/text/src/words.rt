// Words of sixteen bits in bytes, the low byte first.
ghost use Rattle.std.specs.Prelude.{◌≡◌, ◌+◌, ◌*◌, length};
ghost use Rattle.std.proofs.lemmas.List.Edits.{sets};
ghost use Rattle.text.specs.Words.{count_of, words_in_bytes};

pub fn word_of(low: u8, high: u8) -> u16
    ensures { result ≡ low + high * 256 }
{
    u16::from_le_bytes([low, high])
}

// The words in some bytes, from the start of a lent row on, as many as there are and fit; answers how many. An odd last byte is ignored.
pub fn read_words(bytes: &[u8], words: &mut [u16]) -> usize
    ensures count { result ≡ count_of (length words.old) (length bytes.now) }
    ensures read { words.new ≡ sets words.old 0 (words_in_bytes result bytes.now) }
{
    let count = words.len().min(bytes.len() / 2);
    for i in 0..count {
        words[i] = word_of(bytes[2 * i], bytes[2 * i + 1]);
    }
    count
}
