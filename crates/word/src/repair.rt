// Repair of a timing word: one wrong bit is corrected, two are refused (004, 6.2).
ghost use Rattle.std.specs.Prelude.{◌≡◌, ◌<◌, min};
ghost use Rattle.word.specs.Repair.{distance, bit_of, paper_repair, repair_of};

// The legal word, in how many of its twelve bits the given one differs, 0 or 1, and in which, if one was wrong: bit 0 is b0 of table 6, the
// lowest.
#[derive(Clone, Copy, Debug, PartialEq, Eq)]
pub struct Repaired {
    pub word: u16,
    pub distance: u8,
    pub bit: Option<u8>,
}

#[derive(Clone, Copy, Debug, PartialEq, Eq)]
pub enum RepairError {
    // 7: no word has more than twelve bits.
    Above4095,
    // 8: two bits or more from each legal word.
    BeyondRepair,
}

// In how many of twelve bits two words differ; 2 if in more. A number with its lowest set bit cleared is 0 if it had no other.
fn difference(a: u16, b: u16) -> u8
    ensures { result ≡ min 2 (distance a b) }
{
    let x = (a ^ b) % 4096;
    if x == 0 {
        return 0;
    }
    if x & x - 1 == 0 {
        return 1;
    }
    2
}

// The bit in which two words of twelve bits differ, if they do; the lowest if there are more.
fn wrong_bit(a: u16, b: u16) -> Option<u8>
    requires a_bound { a < 4096 }
    requires b_bound { b < 4096 }
    ensures { result ≡ bit_of a b }
{
    let x = a ^ b;
    if x == 0 {
        return None;
    }
    Some(u16::trailing_zeros(x) as u8)
}

// The legal word at most one bit from a given one. There are never two: law one_near.
pub fn repair_timing_word(w: u16) -> Result<Repaired, RepairError>
    ensures { paper_repair result ≡ repair_of w }
{
    if 4095 < w {
        return Err(RepairError::Above4095);
    }
    for vh in 0..4u8 {
        let legal = crate::timing::timing_word(vh / 2 == 1, vh % 2 == 1);
        let d = difference(w, legal);
        if d < 2 {
            return Ok(Repaired {
                word: legal,
                distance: d,
                bit: wrong_bit(w, legal),
            });
        }
    }
    Err(RepairError::BeyondRepair)
}
