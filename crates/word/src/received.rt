// What a timing word says, with one wrong bit corrected. Twelve bits of each word count.
ghost use Rattle.std.specs.Prelude.{◌≡◌, ◌%◌, ◌≤◌};
ghost use Rattle.ground.specs.Answer.{told};
ghost use Rattle.ground.specs.Xor.{◌⊕◌};
ghost use Rattle.word.specs.Repair.{nearest};
ghost use Rattle.word.specs.Received.{is_timing, repaired, v_in, wrong_bits};

// VH of the near legal word, 0 to 3, if there is one.
fn nearest_vh(w: u16) -> Option<u16>
    ensures { told result ≡ nearest (w % 4096) }
{
    match crate::repair::repair_timing_word(w % 4096) {
        Ok(r) => Some(r.word / 256 % 4),
        Err(_) => None,
    }
}

// Whether w is word j of a timing code with this H: FFF 000 000, and XYZ, which may have one wrong bit.
pub fn is_timing(h: bool, j: usize, w: u16) -> bool
    ensures { result ≡ is_timing h j (w % 4096) }
{
    if j == 0 {
        return w % 4096 == 0xFFF;
    }
    if j < 3 {
        return w % 4096 == 0x000;
    }
    let Some(vh) = nearest_vh(w) else {
        return false;
    };
    if h {
        return vh % 2 == 1;
    }
    vh % 2 == 0
}

// V of the word as repaired; 0 if no legal word is near.
pub fn v_in(w: u16) -> bool
    ensures { result ≡ v_in (w % 4096) }
{
    nearest_vh(w).unwrap_or(0) / 2 == 1
}

// The word as repaired; if no legal word is near, that of VH 00.
pub fn repaired_word(w: u16) -> u16
    ensures { result ≡ repaired (w % 4096) }
{
    let vh = nearest_vh(w).unwrap_or(0);
    crate::timing::timing_word(vh / 2 == 1, vh % 2 == 1)
}

// Its bits that were wrong, each in its place.
pub fn wrong_mask(w: u16) -> u16
    ensures { result ≡ w % 4096 ⊕ repaired (w % 4096) }
{
    let x = w % 4096;
    x ^ repaired_word(x)
}

// How many of its bits were wrong.
pub fn wrong_bits(w: u16) -> u8
    ensures count { result ≡ wrong_bits (w % 4096) }
    ensures few { result ≤ 12 }
{
    u16::count_ones(wrong_mask(w) % 4096) as u8
}
