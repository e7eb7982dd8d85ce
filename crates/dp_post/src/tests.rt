use crate::{Post, Posted, Posts};
use dp_domain::{Cells, Domain, Metric, Value};
use dp_draws::{Draws, Replay, Zeros};
use dp_geometric::Geometric;
use dp_law::{Measurement, Piece, ReleaseFault};
use dp_num::Ratio;
use std::alloc::Global;
use std::process::Abort;
use std::test::Fail;

/// The text of a piece: a number as it is, a category behind `#`, a vector between brackets.
fn text_of(rt: &impl Abort, alloc: Global, piece: &Piece) -> String {
    let text = match piece {
        Piece::Int(number) => format!(in alloc; "{number}"),
        Piece::Cat(category) => format!(in alloc; "#{category}"),
        Piece::IntVec(cells) => format!(in alloc; "{:?}", cells.as_slice()),
    };
    text.expect(rt, "memory")
}

/// A measurement of a number or of four cells, with one unit of loss a step for the ratio 9/10.
fn noise(rt: &impl Abort, domain: Domain, metric: Metric, lo: i64, hi: i64) -> Geometric {
    assert!(rt; domain.fits());
    let ratio = Ratio::new(9, 10).expect(rt, "a ratio");
    Geometric::new(domain, metric, ratio, 1, lo, hi).expect(rt, "a noise")
}

fn bins(rt: &impl Abort) -> Geometric {
    let cells = Domain::IntVec {
        len: 4,
        lo: 0,
        hi: 9,
    };
    noise(rt, cells, Metric::L1, 0, 9)
}

/// The text of the one piece that is released on a value of the domain after these changes.
fn released<D: Draws, const N: usize>(
    rt: &impl Abort,
    alloc: Global,
    inner: Geometric,
    posts: [Post; N],
    value: &Value,
    draws: &mut D,
) -> String {
    let posts = Vec::from_array(alloc, posts).expect(rt, "memory");
    assert!(rt; posts.len() <= 16);
    let posted = Posted::new(inner, Posts::from_vec(posts));
    assert!(rt; posted.in_domain().fits());
    assert!(rt; posted.in_domain().has(value));
    let answer = posted.release(alloc, value, draws).expect(rt, "released");
    assert_eq!(rt; answer.len(), 1);
    text_of(rt, alloc, answer.at(0))
}

fn four(rt: &impl Abort, alloc: Global) -> Value {
    let cells = Vec::from_array(alloc, [2, 4, 2, 3]).expect(rt, "memory");
    Value::IntVec(Cells::from_vec(cells))
}

#[test]
fn a_vector_is_cumulated_or_becomes_its_largest_place(rt: HostRuntime) {
    let value = four(&rt, rt.alloc());
    for (posts, wanted) in [
        ([Post::Cumulate, Post::Cumulate], "[2, 8, 16, 27]"),
        ([Post::Cumulate, Post::Floor], "[2, 6, 8, 11]"),
        ([Post::Largest, Post::Floor], "#1"),
        ([Post::Cumulate, Post::Largest], "#3"),
        ([Post::Largest, Post::Cumulate], "#1"),
    ] {
        let given = released(&rt, rt.alloc(), bins(&rt), posts, &value, &mut Zeros::new());
        assert_eq!(rt; given.as_str(), wanted);
    }
    let inner = bins(&rt);
    let given = released(&rt, rt.alloc(), inner, [], &value, &mut Zeros::new());
    assert_eq!(rt; given.as_str(), "[2, 4, 2, 3]");
}

#[test]
fn a_negative_noisy_count_becomes_zero(rt: HostRuntime) -> Result<(), Fail> {
    let number = Domain::Int { lo: 0, hi: 9 };
    for (posts, wanted) in [([Post::Floor], "0"), ([Post::Largest], "-1")] {
        let inner = noise(&rt, number, Metric::Absolute, -5, 0);
        let mut draws = Replay::new(Vec::from_array(rt.alloc(), [18, 9, 9, 9, 9, 9])?);
        let given = released(&rt, rt.alloc(), inner, posts, &Value::Int(0), &mut draws);
        assert_eq!(rt; given.as_str(), wanted);
        assert!(rt; draws.below(2).is_err());
    }
    Ok(())
}

#[test]
fn all_but_the_answers_is_the_inner_measurements(rt: HostRuntime) -> Result<(), Fail> {
    let posts = Posts::from_vec(Vec::from_array(rt.alloc(), [Post::Largest; 16])?);
    let posted = Posted::new(bins(&rt), posts);
    let inner = bins(&rt);
    assert!(rt; posted.in_domain().agrees(&inner.in_domain()));
    assert_eq!(rt; posted.in_metric(), inner.in_metric());
    assert_eq!(rt; (posted.draws(), posted.pieces()), (40, 1));
    assert_eq!(rt; (posted.loss(3), posted.loss(0)), (Ok(3), Ok(0)));
    let shape = posted.shape(rt.alloc()).expect(&rt, "memory");
    assert_eq!(rt; shape.len(), 40);
    let value = four(&rt, rt.alloc());
    assert!(rt; posted.in_domain().has(&value));
    let mut none = Replay::new(Vec::new(rt.alloc()));
    let answer = posted.release(rt.alloc(), &value, &mut none);
    assert!(rt; matches!(answer, Err(ReleaseFault::DrawFault)));
    Ok(())
}
