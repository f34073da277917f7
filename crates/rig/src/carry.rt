// A piece of the frame over the link: sent, knocked, delivered and joined.
ghost use Rattle.std.specs.Prelude.{◌≡◌, ◌<◌, length};
ghost use Rattle.rig.specs.Frame.{line_of_piece};
ghost use Rattle.rig.specs.Piece.{picture_in, heard_in, paper_carried, carry_of, flags_carried, rows_carried};
ghost use Rattle.rig.specs.Sending.{after_from};

use crate::knock::Knock;
use symbol::disparity::Disparity;

// Why a piece is not carried.
#[derive(Clone, Copy, Debug, PartialEq, Eq)]
pub enum CarryError {
    // 2
    NoPiece,
    // 4
    WrongOutput,
}

// A piece of the frame, with room for what it gives. Its symbols, and the samples of a line, are in memory lent for them.
fn carry_in(
    piece: usize,
    d: Disparity,
    k: Knock,
    symbols: &mut [u16],
    words: &mut [u16],
    heard: &mut [u16],
    picture: &mut [u16],
) -> Disparity
    requires piece_bound { piece < 225 }
    requires symbols_len { length symbols.old ≡ 95040 }
    requires words_len { length words.old ≡ 7680 }
    requires heard_len { length heard.old ≡ 5 }
    requires picture_len { length picture.old ≡ 38400 }
    ensures after { result ≡ after_from d (line_of_piece piece 0) 5 }
    ensures heard { heard.new ≡ heard_in k piece }
    ensures picture { picture.new ≡ picture_in k piece }
{
    let first = line::stream::stream_line((5 * piece + 1) as u16);
    let after = crate::transmit::send_piece(first, d, words, symbols);
    crate::knock::strike(k, 95040 * piece, symbols);
    reception::receive::receive(first, symbols, heard, picture);
    after
}

// The five lines of a piece, pieces counted from 0: which of them were heard, 1 or 0, and ten rows of the picture, black where a line is
// lost and on blanking lines. The answer is the disparity for the next piece.
pub fn carry(
    piece: usize,
    d: Disparity,
    k: Knock,
    heard: &mut [u16],
    picture: &mut [u16],
) -> Result<Disparity, CarryError>
    ensures answer { paper_carried result ≡ carry_of piece d (length heard.old) (length picture.old) }
    ensures heard { heard.new ≡ flags_carried k piece d heard.old (length picture.old) }
    ensures picture { picture.new ≡ rows_carried k piece d (length heard.old) picture.old }
{
    if 225 <= piece {
        return Err(CarryError::NoPiece);
    }
    if heard.len() != 5 {
        return Err(CarryError::WrongOutput);
    }
    if picture.len() != 38400 {
        return Err(CarryError::WrongOutput);
    }
    let mut symbols = [0u16; 95040];
    let mut words = [0u16; 7680];
    Ok(carry_in(piece, d, k, &mut symbols, &mut words, heard, picture))
}
