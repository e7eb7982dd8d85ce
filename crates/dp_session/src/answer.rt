ghost use Rattle.std.specs.Prelude.{◌≡◌, ◌++◌, ◌∷◌, string_bytes, IfOk, OnOk, codes};
ghost use Rattle.dp_session.specs.AnswerText.{piece_text, numbers_text, pieces_text, answer_text};

use dp_count::NoMemory;
use dp_law::{Answer, Piece};
use std::alloc::Global;

/// How an answer is written: one piece as it is, and others in parentheses.
pub(crate) fn answer_text(alloc: Global, answer: &Answer) -> Result<String, NoMemory>
    ensures { IfOk result (λ text. string_bytes text ≡ answer_text answer.now) }
{
    if answer.len() == 1 {
        return piece_text(alloc, answer.at(0));
    }
    let inside = pieces_text(alloc, answer.as_slice())?;
    Ok(format!(in alloc; "({inside})")?)
}

/// How a piece is written: a number as it is, a category behind a hash sign, and a vector in brackets.
fn piece_text(alloc: Global, piece: &Piece) -> Result<String, NoMemory>
    ensures { IfOk result (λ text. string_bytes text ≡ piece_text piece.now) }
{
    match piece {
        Piece::Int(number) => Ok(format!(in alloc; "{number}")?),
        Piece::Cat(number) => Ok(format!(in alloc; "#{number}")?),
        Piece::IntVec(cells) => {
            let inside = numbers_text(alloc, cells.as_slice())?;
            Ok(format!(in alloc; "[{inside}]")?)
        }
    }
}

/// Numbers, with a comma between each two.
#[tactic(auto, unfolding(crate::proofs::AnswerTexts::numbers_behind))]
fn numbers_text(alloc: Global, cells: &[i64]) -> Result<String, NoMemory>
    ensures { IfOk result (λ text. string_bytes text ≡ numbers_text cells.now) }
{
    let Some((first, rest)) = cells.split_first() else {
        return Ok(String::new(alloc));
    };
    let mut text = format!(in alloc; "{first}")?;
    for cell in rest {
        let next = format!(in alloc; ",{cell}")?;
        text.push_str(next.as_str())?;
    }
    Ok(text)
}

/// Pieces, with a semicolon between each two.
#[tactic(auto, unfolding(crate::proofs::AnswerTexts::pieces_behind))]
fn pieces_text(alloc: Global, pieces: &[Piece]) -> Result<String, NoMemory>
    ensures { IfOk result (λ text. string_bytes text ≡ pieces_text pieces.now) }
{
    let Some((first, rest)) = pieces.split_first() else {
        return Ok(String::new(alloc));
    };
    let mut text = piece_text(alloc, first)?;
    for piece in rest {
        let next = piece_text(alloc, piece)?;
        text.push_str(";")?;
        text.push_str(next.as_str())?;
    }
    Ok(text)
}
