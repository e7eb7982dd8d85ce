//! The definitions on the cell from 0 to 1 with the numbers 1 and 2, whose six draw lists can be read off.
ghost use Rattle.std.specs.Prelude.{◌≡◌, pos};
ghost use Rattle.dp_geometric.specs.CellLaw.{ways};
ghost use Rattle.dp_geometric.specs.Small.{small_cell};

/// On 0, four draw lists give 0 and two give 1.
fn on_zero()
    ensures near { ways small_cell (pos 0) (pos 0) ≡ 4 }
    ensures far { ways small_cell (pos 0) (pos 1) ≡ 2 }
{}

/// On 1, two draw lists give 0 and four give 1.
fn on_one()
    ensures far { ways small_cell (pos 1) (pos 0) ≡ 2 }
    ensures near { ways small_cell (pos 1) (pos 1) ≡ 4 }
{}

#[test]
fn the_numbers_of_six_draw_lists(_rt: HostRuntime) {
    on_zero();
    on_one();
}
