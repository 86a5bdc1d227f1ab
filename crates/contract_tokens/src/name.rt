//! Names and keywords: the same run of bytes is a keyword if it is spelled as one, else a name.

ghost use Rattle.std.specs.Prelude.{◌≡◌};
ghost use Rattle.contract_tokens.specs.Pieces.{keyword_of, name_piece};

use crate::edition::SECOND_EDITION;
use crate::piece::Piece;
use crate::token::{Mark, TokenKind, Word};
use lc_base::Name;

#[tactic(auto, unfolding(crate::specs::Pieces::keyword_of))]
fn keyword_of(edition: u8, run: &[u8]) -> Option<Mark>
    ensures { result ≡ keyword_of edition run.now }
{
    match run {
        b"fn" => Some(Mark::Fn),
        b"let" => Some(Mark::Let),
        b"if" => Some(Mark::If),
        b"else" => Some(Mark::Else),
        b"while" => Some(Mark::While),
        b"put" => Some(Mark::Put),
        b"drop" => {
            if edition == SECOND_EDITION {
                Some(Mark::Drop)
            } else {
                None
            }
        }
        b"from" => Some(Mark::From),
        b"fail" => Some(Mark::Fail),
        b"return" => Some(Mark::Return),
        b"int" => Some(Mark::Int),
        b"text" => Some(Mark::Text),
        _ => None,
    }
}

/// The piece of the keyword or the name that the bytes are.
#[tactic(auto, unfolding(crate::specs::Pieces::name_piece))]
pub fn name_piece(edition: u8, run: &[u8]) -> Piece
    ensures { result ≡ name_piece edition run.now }
{
    if let Some(mark) = keyword_of(edition, run) {
        return Piece::Take(run.len(), Word::Mark(mark));
    }
    match Name::new(run) {
        Ok(name) => Piece::Take(run.len(), Word::Name(name)),
        Err(_) => Piece::Bad(TokenKind::Literal),
    }
}
