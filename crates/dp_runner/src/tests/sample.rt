use super::account::{joined, shows};
use super::{Calls, NO_FAILURE, Shown, pieces_of, run_over};
use crate::laws::sample_law;
use dp_draws::NoDraws;
use dp_io::MemShelf;
use std::process::Abort;
use std::test::Fail;

/// What a run with these words shows over a shelf that has no file. No draw is taken from the source that is handed in:
/// it has none.
fn run_with(rt: &impl AllocGlobal, words: &[&str]) -> Result<Shown, Fail> {
    let alloc = rt.alloc();
    let calls = Calls {
        whole: true,
        ..NO_FAILURE
    };
    let mut shelf = MemShelf::new(alloc, 1, Vec::new(alloc));
    run_over(
        rt,
        words,
        &mut shelf,
        &mut NoDraws::new(),
        calls,
        pieces_of(calls.whole),
    )
}

/// That a run of so many records writes these lines and ends with 0.
fn samples(rt: &(impl Abort + AllocGlobal), records: &str, lines: &[&str]) -> Result<(), Fail> {
    let shown = run_with(rt, &["sample", records])?;
    shows(rt, &shown, 0, joined(rt, lines)?.as_bytes(), b"");
    Ok(())
}

#[test]
fn sample_thousand(rt: HostRuntime) -> Result<(), Fail> {
    sample_law();
    samples(
        &rt,
        "1000",
        &[
            "records 1000",
            "1 answer 5 cost 1 spent 1",
            "2 answer 49 cost 1 spent 2",
            "3 answer #0 cost 3 spent 5",
            "end 3 spent 5",
        ],
    )
}

#[test]
fn sample_million(rt: HostRuntime) -> Result<(), Fail> {
    samples(
        &rt,
        "1000000",
        &[
            "records 1000000",
            "1 answer 5000 cost 1 spent 1",
            "2 answer 49500 cost 1 spent 2",
            "3 answer #0 cost 3 spent 5",
            "end 3 spent 5",
        ],
    )
}

#[test]
fn zeros_may_stand_before_a_number_of_at_most_seven_digits(rt: HostRuntime) -> Result<(), Fail> {
    samples(
        &rt,
        "0000001",
        &[
            "records 1",
            "1 answer 0 cost 1 spent 1",
            "2 answer 0 cost 1 spent 2",
            "3 answer #0 cost 3 spent 5",
            "end 3 spent 5",
        ],
    )
}

#[test]
fn words_of_no_form(rt: HostRuntime) -> Result<(), Fail> {
    for words in [
        ["sample"].as_slice(),
        ["sample", "1", "1"].as_slice(),
        ["sample", ""].as_slice(),
        ["sample", "0"].as_slice(),
        ["sample", "1000001"].as_slice(),
        ["sample", "00000001"].as_slice(),
        ["sample", "-1"].as_slice(),
        ["sample", "1x"].as_slice(),
    ] {
        let shown = run_with(&rt, words)?;
        shows(&rt, &shown, 2, b"", b"dp: usage\n");
    }
    Ok(())
}
