ghost use Rattle.std.specs.Prelude.{◌≡◌, map};
ghost use Rattle.dp_post.specs.Posts.{running_sums, floored, changed_piece, posted_piece, posted};

use crate::cells::{cumulate, floor, floored, largest};
use dp_count::Items;
use dp_domain::Cells;
use dp_law::{Answer, Piece};

/// A change of an answer after its release. Each piece is changed by itself; a category stays as it is.
#[derive(Clone, Copy, Debug, PartialEq, Eq)]
pub enum Post {
    /// A vector becomes its running sums, each clipped to ±2^62. A number stays as it is.
    Cumulate,
    /// A negative number becomes 0, alone and in a vector.
    Floor,
    /// A vector becomes the first place of its greatest cell, as a category from 0 and at most 2^32 - 1; a vector
    /// without a cell becomes the category 0. A number stays as it is.
    Largest,
}

/// Changes from first to last.
pub type Posts = Items<Post>;

impl Post {
    /// What the change makes of a piece, in the piece's own memory.
    fn change(self, piece: Piece) -> Piece
        ensures { result ≡ changed_piece self piece }
    {
        match (self, piece) {
            (Post::Cumulate, Piece::IntVec(cells)) => Piece::IntVec(running_sums(cells)),
            (Post::Floor, Piece::Int(number)) => Piece::Int(floored(&number)),
            (Post::Floor, Piece::IntVec(cells)) => Piece::IntVec(floored_cells(cells)),
            (Post::Largest, Piece::IntVec(cells)) => Piece::Cat(largest(cells.as_slice())),
            (_, other) => other,
        }
    }
}

/// The running sums of the cells.
fn running_sums(cells: Cells) -> Cells
    ensures { result ≡ running_sums cells }
{
    let mut numbers = cells.into_vec();
    cumulate(&mut numbers);
    Cells::from_vec(numbers)
}

/// The cells with 0 in place of each negative one.
fn floored_cells(cells: Cells) -> Cells
    ensures { result ≡ map floored cells }
{
    let mut numbers = cells.into_vec();
    floor(&mut numbers);
    Cells::from_vec(numbers)
}

/// What the changes, from first to last, make of a piece.
fn posted_piece(posts: &[Post], piece: Piece) -> Piece
    ensures { result ≡ posted_piece posts.now piece }
{
    posts.iter().fold(piece, |so_far, post| post.change(so_far))
}

/// The answer with each of its pieces changed by all of the changes, from first to last, in the answer's own memory.
pub fn changed_answer(posts: &[Post], answer: Answer) -> Answer
    ensures { result ≡ posted posts.now answer }
{
    let mut pieces = answer.into_vec();
    for part in pieces.iter_mut() {
        let piece = std::mem::replace(part, Piece::Int(0));
        *part = posted_piece(posts, piece);
    }
    Answer::from_vec(pieces)
}

#[cfg(test)]
mod tests {
    use super::*;
    use std::alloc::{AllocError, Global};
    use std::test::Fail;

    fn vector<const N: usize>(alloc: Global, cells: [i64; N]) -> Result<Piece, AllocError> {
        Ok(Piece::IntVec(Cells::from_vec(Vec::from_array(alloc, cells)?)))
    }

    fn is_vector(piece: &Piece, wanted: &[i64]) -> bool {
        matches!(piece, Piece::IntVec(cells) if cells.as_slice() == wanted)
    }

    const MOST: i64 = 1 << 62;

    #[test]
    fn a_number_and_a_category_stay_but_for_a_floored_number(rt: HostRuntime) {
        for (post, number, wanted) in [
            (Post::Cumulate, -3, -3),
            (Post::Floor, -3, 0),
            (Post::Floor, 3, 3),
            (Post::Largest, -3, -3),
        ] {
            assert!(rt; matches!(post.change(Piece::Int(number)), Piece::Int(n) if n == wanted));
            assert!(rt; matches!(post.change(Piece::Cat(7)), Piece::Cat(7)));
        }
    }

    #[test]
    fn running_sums_stop_at_the_limits(rt: HostRuntime) -> Result<(), Fail> {
        for (cells, wanted) in [
            ([2, 4, 2, 3], [2, 6, 8, 11]),
            ([MOST, 1, -2, MOST], [MOST, MOST, MOST - 2, MOST]),
            ([-MOST, -1, 2, i64::MIN], [-MOST, -MOST, 2 - MOST, -MOST]),
            (
                [i64::MAX, i64::MIN, 0, i64::MAX],
                [MOST, -MOST, -MOST, MOST - 1],
            ),
        ] {
            let given = Post::Cumulate.change(vector(rt.alloc(), cells)?);
            assert!(rt; is_vector(&given, wanted.as_slice()));
        }
        assert!(rt; is_vector(&Post::Cumulate.change(vector(rt.alloc(), [])?), &[]));
        Ok(())
    }

    #[test]
    fn negative_cells_become_zero(rt: HostRuntime) -> Result<(), Fail> {
        let given = Post::Floor.change(vector(rt.alloc(), [-1, 0, 5, i64::MIN])?);
        assert!(rt; is_vector(&given, &[0, 0, 5, 0]));
        Ok(())
    }

    #[test]
    fn the_first_of_equal_greatest_cells_is_the_largest(rt: HostRuntime) -> Result<(), Fail> {
        for (cells, place) in [
            ([2, 4, 2, 3], 1),
            ([4, 4, 4, 4], 0),
            ([1, 5, 5, 2], 1),
            ([-9, -8, -7, -7], 2),
            ([i64::MIN, 0, 1, i64::MAX], 3),
        ] {
            let given = Post::Largest.change(vector(rt.alloc(), cells)?);
            assert!(rt; matches!(given, Piece::Cat(k) if k == place));
        }
        let given = Post::Largest.change(vector(rt.alloc(), [])?);
        assert!(rt; matches!(given, Piece::Cat(0)));
        Ok(())
    }

    #[test]
    fn each_piece_is_changed_by_itself(rt: HostRuntime) -> Result<(), Fail> {
        let mut pieces = Vec::new(rt.alloc());
        pieces.push(vector(rt.alloc(), [3, -1])?)?;
        pieces.push(Piece::Int(-4))?;
        pieces.push(vector(rt.alloc(), [1, 1, 1])?)?;
        let posts = [Post::Cumulate, Post::Floor];
        let answer = changed_answer(&posts, Answer::from_vec(pieces)).into_vec();
        assert_eq!(rt; answer.len(), 3);
        assert!(rt; is_vector(&answer[0], &[3, 2]));
        assert!(rt; matches!(answer[1], Piece::Int(0)));
        assert!(rt; is_vector(&answer[2], &[1, 2, 3]));
        Ok(())
    }
}
