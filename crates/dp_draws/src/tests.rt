//! Each source through the trait.
ghost use Rattle.std.specs.Prelude.{◌≤◌, ◌^◌};

use super::*;
use dp_count::Failed;
use std::test::Fail;

/// A draw of any source.
fn drawn<D: Draws + Drop>(mut source: D, m: u64) -> Result<u64, Failed>
    requires positive { 1 ≤ m }
    requires bounded { m ≤ 2 ^ 62 }
{
    source.below(m)
}

#[test]
fn every_source_is_drawn_from_through_the_trait(rt: HostRuntime) -> Result<(), Fail> {
    assert_eq!(rt; drawn(NoDraws::new(), 3), Err(Failed));
    assert_eq!(rt; drawn(Zeros::new(), 3), Ok(0));
    assert_eq!(rt; drawn(Replay::new(vec![in rt.alloc(); 2]?), 3), Ok(2));
    assert_eq!(rt; drawn(ChaChaDraws::new([0; 32]), 3), Ok(0));
    assert_eq!(rt; drawn(FailAt::new(Zeros::new(), 0), 3), Err(Failed));
    assert_eq!(rt;
        drawn(FailAt::new(FailAt::new(Zeros::new(), 2), 1), 3),
        Ok(0)
    );
    Ok(())
}
