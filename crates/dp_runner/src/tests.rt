ghost use Rattle.std.specs.Prelude.{◌≤◌};

mod account;
mod check;
mod faults;
mod release;
mod sample;
mod sessions;
mod verdicts;

use crate::laws::count_law;
use crate::{end_without_memory, run_words};
use dp_draws::{Draws, NoDraws};
use dp_io::{MemShelf, MemSink};
use std::process::Abort;
use std::test::Fail;

/// What a run answers and writes.
#[derive(Drop)]
struct Shown {
    status: u8,
    out: Vec<u8>,
    err: Vec<u8>,
}

/// Which calls of a run's objects fail, by their number from 1, and none where it is 0; and whether the objects read
/// and write all at once, or a few bytes at a time.
#[derive(Clone, Copy, Drop)]
struct Calls {
    shelf: u64,
    out: u64,
    err: u64,
    whole: bool,
}

/// A few bytes at a time, and no failure.
const NO_FAILURE: Calls = Calls {
    shelf: 0,
    out: 0,
    err: 0,
    whole: false,
};

/// How many bytes an output in memory has room for: 32 for each of the most query lines that a run answers.
const ROOM: usize = 32 << 20;

/// How many bytes a read and a write of a run's objects take at most.
#[derive(Clone, Copy, Drop)]
struct Pieces {
    read: usize,
    written: usize,
    told: usize,
}

/// A run over a shelf in memory with the files `data` and `draws`.
fn run_with(
    rt: &impl AllocGlobal,
    words: &[&str],
    data: &[u8],
    draws: &[u8],
    calls: Calls,
) -> Result<Shown, Fail> {
    run_in_pieces(rt, words, data, draws, calls, pieces_of(calls.whole))
}

/// All at once, or a few bytes at a time.
fn pieces_of(whole: bool) -> Pieces
    ensures read { 1 ≤ result.read }
    ensures written { 1 ≤ result.written }
    ensures told { 1 ≤ result.told }
{
    if whole {
        Pieces {
            read: 1 << 20,
            written: 64,
            told: 64,
        }
    } else {
        Pieces {
            read: 7,
            written: 3,
            told: 5,
        }
    }
}

/// The same, whose objects take such pieces.
fn run_in_pieces(
    rt: &impl AllocGlobal,
    words: &[&str],
    data: &[u8],
    draws: &[u8],
    calls: Calls,
    pieces: Pieces,
) -> Result<Shown, Fail>
    requires read { 1 ≤ pieces.read }
    requires written { 1 ≤ pieces.written }
    requires told { 1 ≤ pieces.told }
{
    let alloc = rt.alloc();
    let mut shelf = MemShelf::new(alloc, pieces.read, vec![in alloc; calls.shelf]?);
    shelf.add(
        String::from_str(alloc, "data")?,
        Vec::from_slice(alloc, data)?,
    )?;
    shelf.add(
        String::from_str(alloc, "draws")?,
        Vec::from_slice(alloc, draws)?,
    )?;
    run_over(rt, words, &mut shelf, &mut NoDraws::new(), calls, pieces)
}

/// A run over a shelf in memory and a source of draws, whose outputs take such pieces.
fn run_over<D: Draws>(
    rt: &impl AllocGlobal,
    words: &[&str],
    shelf: &mut MemShelf,
    source: &mut D,
    calls: Calls,
    pieces: Pieces,
) -> Result<Shown, Fail>
    requires written { 1 ≤ pieces.written }
    requires told { 1 ≤ pieces.told }
{
    let alloc = rt.alloc();
    let mut out = MemSink::new(alloc, pieces.written, vec![in alloc; calls.out]?, ROOM)?;
    let mut err = MemSink::new(alloc, pieces.told, vec![in alloc; calls.err]?, ROOM)?;
    let mut given = Vec::new(alloc);
    for word in words {
        given.push(String::from_str(alloc, word)?)?;
    }
    let status = run_words(alloc, &given, shelf, source, &mut out, &mut err);
    Ok(Shown {
        status,
        out: Vec::from_slice(alloc, out.held())?,
        err: Vec::from_slice(alloc, err.held())?,
    })
}

/// A run in which no call fails, read and written a few bytes at a time.
fn run(rt: &impl AllocGlobal, words: &[&str], data: &[u8], draws: &[u8]) -> Result<Shown, Fail> {
    run_with(rt, words, data, draws, NO_FAILURE)
}

/// That a count over these texts and this range writes one line and nothing else.
fn answers(
    rt: &(impl Abort + AllocGlobal),
    data: &[u8],
    draws: &str,
    lo: &str,
    hi: &str,
    line: &str,
) -> Result<(), Fail> {
    let shown = run(
        rt,
        &["count", "data", "draws", lo, hi],
        data,
        draws.as_bytes(),
    )?;
    assert_eq!(rt; shown.status, 0, "{line}");
    assert_eq!(rt; shown.out.as_slice(), line.as_bytes());
    assert!(rt; shown.err.is_empty());
    Ok(())
}

/// That a run with these words ends with this status and this line on the error output, and writes nothing.
fn ends(
    rt: &(impl Abort + AllocGlobal),
    words: &[&str],
    draws: &str,
    status: u8,
    line: &str,
) -> Result<(), Fail> {
    let shown = run(rt, words, b"a\nb\nc\n", draws.as_bytes())?;
    assert_eq!(rt; shown.status, status, "{line}");
    assert!(rt; shown.out.is_empty());
    assert_eq!(rt; shown.err.as_slice(), line.as_bytes());
    Ok(())
}

#[test]
fn count_three_records(rt: HostRuntime) -> Result<(), Fail> {
    answers(&rt, b"a\nb\nc\n", "0 0 0 0 0 0", "0", "5", "answer 3\n")
}

#[test]
fn noise_plus_two(rt: HostRuntime) -> Result<(), Fail> {
    answers(&rt, b"a\nb\nc\n", "1 0 1 1 0 0", "0", "5", "answer 5\n")
}

#[test]
fn noise_minus_six_clamped(rt: HostRuntime) -> Result<(), Fail> {
    answers(&rt, b"a\nb\nc\n", "2 0 0 0 0 0", "0", "5", "answer 0\n")
}

#[test]
fn range_of_one_number(rt: HostRuntime) -> Result<(), Fail> {
    for draws in ["0", "1", "2"] {
        answers(&rt, b"a\nb\nc\n", draws, "4", "4", "answer 4\n")?;
    }
    Ok(())
}

#[test]
fn empty_data(rt: HostRuntime) -> Result<(), Fail> {
    answers(&rt, b"", "0 0 0 0 0 0", "0", "5", "answer 0\n")
}

#[test]
fn usage_and_missing_file(rt: HostRuntime) -> Result<(), Fail> {
    ends(&rt, &["run", "P"], "0", 2, "dp: usage\n")?;
    ends(
        &rt,
        &["count", "other", "draws", "0", "0"],
        "0",
        4,
        "dp: read fault\n",
    )?;
    ends(
        &rt,
        &["count", "data", "other", "0", "0"],
        "0",
        4,
        "dp: read fault\n",
    )
}

#[test]
fn records_of_any_form_are_counted(rt: HostRuntime) -> Result<(), Fail> {
    let zeros = "0 0 0 0 0 0 0 0 0 0";
    for (data, line) in [
        (b"\"a\nb\",\"c\"\"d\"\ne\n".as_slice(), "answer 2\n"),
        (b"a\rb\rc".as_slice(), "answer 3\n"),
        (b"a\r\nb\r\n".as_slice(), "answer 2\n"),
        (b"a\n\n\r\n\nb\n".as_slice(), "answer 2\n"),
        (b"\"\"\n".as_slice(), "answer 1\n"),
        (b"a,b,c\nd\ne,f\n".as_slice(), "answer 3\n"),
        (b"\xff\xfe,a\n\x80\n".as_slice(), "answer 2\n"),
        (b"a\nb,\"c\nd\ne".as_slice(), "answer 2\n"),
        (b"# a\n".as_slice(), "answer 1\n"),
    ] {
        answers(&rt, data, zeros, "0", "9", line)?;
    }
    Ok(())
}

#[test]
fn draws_that_cannot_be_taken(rt: HostRuntime) -> Result<(), Fail> {
    for draws in [
        "",
        "0 0 0 0 0",
        "0 0 0 0 0 2",
        "3 0 0 0 0 0",
        "0 0 x 0 0 0",
        "0,0 0 0 0 0",
        "0 -1 0 0 0 0",
        "0 0 0 0 0 00000000000000000000",
    ] {
        ends(
            &rt,
            &["count", "data", "draws", "0", "5"],
            draws,
            6,
            "dp: draw fault\n",
        )?;
    }
    answers(
        &rt,
        b"a\n",
        "0\r\n0\t0 0  0\n0000000000000000000 x",
        "0",
        "5",
        "answer 1\n",
    )
}

#[test]
fn words_of_a_range(rt: HostRuntime) -> Result<(), Fail> {
    for (lo, hi, line) in [
        ("-5", "-5", "answer -5\n"),
        ("-0", "000000000000000000", "answer 0\n"),
        ("007", "7", "answer 7\n"),
        (
            "999999999999999999",
            "999999999999999999",
            "answer 999999999999999999\n",
        ),
        (
            "-999999999999999999",
            "-999999999999999999",
            "answer -999999999999999999\n",
        ),
    ] {
        answers(&rt, b"a\n", "0", lo, hi, line)?;
    }
    for (lo, hi) in [
        ("0", "65536"),
        ("1", "0"),
        ("0000000000000000000", "0"),
        ("0", "1000000000000000000"),
        ("+0", "0"),
        ("", "0"),
        ("-", "0"),
        ("0", "0x"),
    ] {
        ends(
            &rt,
            &["count", "data", "draws", lo, hi],
            "0",
            2,
            "dp: usage\n",
        )?;
    }
    ends(
        &rt,
        &["count", "data", "draws", "0", "65535"],
        "0",
        6,
        "dp: draw fault\n",
    )
}

#[test]
fn words_of_no_form(rt: HostRuntime) -> Result<(), Fail> {
    ends(&rt, &[], "0", 2, "dp: usage\n")?;
    ends(&rt, &["--help"], "0", 2, "dp: usage\n")?;
    ends(
        &rt,
        &["count", "", "draws", "0", "0"],
        "0",
        2,
        "dp: usage\n",
    )?;
    ends(&rt, &["count", "data", "", "0", "0"], "0", 2, "dp: usage\n")?;
    ends(&rt, &["count", "data", "draws", "0"], "0", 2, "dp: usage\n")?;
    ends(
        &rt,
        &["count", "data", "draws", "0", "0", "0"],
        "0",
        2,
        "dp: usage\n",
    )?;
    ends(
        &rt,
        &["counts", "data", "draws", "0", "0"],
        "0",
        2,
        "dp: usage\n",
    )
}

/// The words of a count of the file `data`.
const COUNT: [&str; 5] = ["count", "data", "draws", "0", "5"];

#[test]
fn draws_of_more_than_their_limit_are_too_long(rt: HostRuntime) -> Result<(), Fail> {
    let alloc = rt.alloc();
    let calls = Calls {
        whole: true,
        ..NO_FAILURE
    };
    let mut draws = vec![in alloc; b'0'; (1 << 26) + 1]?;
    let shown = run_with(&rt, &COUNT, b"a\n", draws.as_slice(), calls)?;
    assert_eq!(rt; shown.status, 7);
    assert!(rt; shown.out.is_empty());
    assert_eq!(rt; shown.err.as_slice(), b"dp: too long\n".as_slice());
    draws.truncate(1 << 26);
    let shown = run_with(&rt, &COUNT, b"a\n", draws.as_slice(), calls)?;
    assert_eq!(rt; shown.status, 6);
    assert_eq!(rt; shown.err.as_slice(), b"dp: draw fault\n".as_slice());
    Ok(())
}

#[test]
fn a_run_without_memory_ends_with_its_line(rt: HostRuntime) -> Result<(), Fail> {
    count_law();
    let alloc = rt.alloc();
    let mut err = MemSink::new(alloc, 5, Vec::new(alloc), 64)?;
    assert_eq!(rt; end_without_memory(&mut err), 9);
    assert_eq!(rt; err.held(), b"dp: no memory\n".as_slice());
    Ok(())
}
