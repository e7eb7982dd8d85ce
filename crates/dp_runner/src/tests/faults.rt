ghost use Rattle.std.specs.Prelude.{◌≤◌};

use super::account::{ASK_THREE, ASK_TWO, FILTER_FIVE, shows};
use super::release::BY_DISTRICT;
use super::sessions::{CENSUS, PERSONS, REHEARSE, REPLAY, RUN, TWO_RECORDS, Texts, run_in_pieces};
use super::{COUNT, Calls, NO_FAILURE, Pieces};
use dp_draws::Zeros;
use std::process::Abort;
use std::test::Fail;

/// A command whose calls are failed, one after another.
#[derive(Clone, Copy, Drop)]
struct Command<'a> {
    words: &'a [&'a str],
    texts: Texts<'a>,
    /// What it writes where no call fails: what it hands to the output at once, one after another.
    writes: &'a [&'a str],
}

/// How a run ends: its status, and its line on the error output.
#[derive(Clone, Copy, Drop)]
struct End {
    status: u8,
    line: &'static [u8],
}

const NO_FAULT: End = End {
    status: 0,
    line: b"",
};

const READ_FAULT: End = End {
    status: 4,
    line: b"dp: read fault\n",
};

const WRITE_FAULT: End = End {
    status: 5,
    line: b"dp: write fault\n",
};

/// More bytes than a text of these tests has.
const AT_ONCE: usize = 1 << 10;

/// The texts of a release of the census.
const OF_CENSUS: Texts<'static> = Texts {
    pipeline: CENSUS,
    data: PERSONS,
    queries: b"",
    draws: b"",
};

/// That a command whose calls fail so holds this and ends so, over objects that read and write at most `piece` bytes a
/// call; and does the same where its error output fails, at the first call or at the second.
fn ends(
    rt: &(impl Abort + AllocGlobal),
    command: &Command<'_>,
    piece: usize,
    calls: Calls,
    held: &[u8],
    end: End,
) -> Result<(), Fail>
    requires { 1 ≤ piece }
{
    let pieces = Pieces {
        read: piece,
        written: piece,
        told: piece,
    };
    let Calls { shelf, out, .. } = calls;
    let first = &end.line[..end.line.len().min(piece)];
    for (err, told) in [(0, end.line), (1, b"".as_slice()), (2, first)] {
        let source = &mut Zeros::new();
        let fails = Calls { err, ..calls };
        let shown = run_in_pieces(rt, command.words, command.texts, source, fails, pieces)?;
        assert_eq!(rt;
            shown.status,
            end.status,
            "by {piece}: shelf {shelf}, out {out}, err {err}"
        );
        shows(rt, &shown, end.status, held, told);
    }
    Ok(())
}

/// What is written before the call of the shelf with this number, where so many calls come before each write.
fn written_before(
    rt: &impl AllocGlobal,
    writes: &[&str],
    calls: &[u64],
    call: u64,
) -> Result<String, Fail> {
    let mut out = String::new(rt.alloc());
    for (text, before) in writes.iter().zip(calls) {
        if *before < call {
            out.push_str(text)?;
        }
    }
    Ok(out)
}

/// That each call of the shelf that fails ends a command with a read fault, until none fails. `calls` has how many of
/// them come before each write; none comes after the last.
fn each_call_of_the_shelf(
    rt: &(impl Abort + AllocGlobal),
    command: &Command<'_>,
    piece: usize,
    calls: &[u64],
) -> Result<(), Fail>
    requires { 1 ≤ piece }
{
    assert_eq!(rt; calls.len(), command.writes.len());
    let last = calls.last().copied().unwrap_or(0);
    for shelf in 1..=last.saturating_add(1) {
        let fails = Calls {
            shelf,
            ..NO_FAILURE
        };
        let end = if shelf <= last { READ_FAULT } else { NO_FAULT };
        let out = written_before(rt, command.writes, calls, shelf)?;
        ends(rt, command, piece, fails, out.as_bytes(), end)?;
    }
    Ok(())
}

/// That each call of the output that fails ends a command with a write fault, until none fails.
fn each_call_of_the_output(
    rt: &(impl Abort + AllocGlobal),
    command: &Command<'_>,
    piece: usize,
) -> Result<(), Fail>
    requires { 1 ≤ piece }
{
    let mut held = Vec::new(rt.alloc());
    let mut fails = Calls {
        out: 1,
        ..NO_FAILURE
    };
    for text in command.writes {
        for written in text.as_bytes().chunks(piece) {
            ends(rt, command, piece, fails, held.as_slice(), WRITE_FAULT)?;
            held.extend_from_slice(written)?;
            fails.out = fails.out.saturating_add(1);
        }
    }
    ends(rt, command, piece, fails, held.as_slice(), NO_FAULT)
}

/// That each call that fails ends a command with its fault: a row for each number of bytes that a call reads and
/// writes at most, with how many calls of the shelf come before each write.
fn each_call(
    rt: &(impl Abort + AllocGlobal),
    command: &Command<'_>,
    rows: &[(usize, &[u64])],
) -> Result<(), Fail> {
    for (piece, calls) in rows {
        assert!(rt; *piece >= 1);
        each_call_of_the_shelf(rt, command, *piece, calls)?;
        each_call_of_the_output(rt, command, *piece)?;
    }
    Ok(())
}

/// The same of a command on three asks of a filter of 5, which refuses the second. Its rows are for all bytes at once,
/// for a line at a time, and for 20 bytes at a time, where the last ask has no line feed.
fn each_call_on_asks<'a>(
    rt: &(impl Abort + AllocGlobal),
    words: &'a [&'a str],
    writes: &'a [&'a str],
    rows: [&[u64]; 3],
) -> Result<(), Fail> {
    let [at_once, lines, twenties] = rows;
    let queries = format!(in rt.alloc(); "{ASK_THREE}\n{ASK_THREE}\n{ASK_TWO}\n")?;
    let texts = Texts {
        pipeline: FILTER_FIVE,
        data: TWO_RECORDS,
        queries: queries.as_bytes(),
        draws: b"0 0",
    };
    let command = Command {
        words,
        texts,
        writes,
    };
    each_call(rt, &command, &[(AT_ONCE, at_once), (49, lines)])?;
    let texts = Texts {
        queries: queries.trim_end().as_bytes(),
        ..texts
    };
    let command = Command { texts, ..command };
    each_call(rt, &command, &[(20, twenties)])
}

// To read a file of so many pieces, the shelf is called once to open it, once for each piece, and once when no more is
// left. The pipeline of the asks has 111 bytes, the data 8, the draws 3 and each ask 48; that of the census has 185,
// and the data 146.

#[test]
fn each_call_that_fails_a_count(rt: HostRuntime) -> Result<(), Fail> {
    let command = Command {
        words: &COUNT,
        texts: Texts {
            pipeline: b"",
            data: b"a\nb\nc\n",
            queries: b"",
            draws: b"0 0 0 0 0 0",
        },
        writes: &["answer 3\n"],
    };
    each_call(&rt, &command, &[(AT_ONCE, &[6]), (7, &[7]), (3, &[10])])
}

#[test]
fn each_call_that_fails_a_check(rt: HostRuntime) -> Result<(), Fail> {
    let command = Command {
        words: &["check", "pipeline"],
        texts: OF_CENSUS,
        writes: &[
            "root rows 3 symmetric 1\n",
            "budget filter 20\n",
            "plan women\n",
            "filter rows 3 symmetric 1\n",
            "count int 0 1073741824 absolute 1\n",
            "geometric draws 13 loss 1\n",
            "accepted\n",
        ],
    };
    each_call(&rt, &command, &[(AT_ONCE, &[3; 7]), (7, &[29; 7])])
}

#[test]
fn each_call_that_fails_an_account(rt: HostRuntime) -> Result<(), Fail> {
    each_call_on_asks(
        &rt,
        &["account", "pipeline", "queries"],
        &[
            "1 admitted draws 1 cost 3 spent 3\n",
            "2 refused 7 budget 3 2\n",
            "3 admitted draws 1 cost 2 spent 5\n",
            "end 3 spent 5\n",
        ],
        [&[5, 5, 5, 6], &[7, 8, 9, 10], &[12, 14, 18, 18]],
    )
}

/// What a session answers to the asks.
const ANSWERS: [&str; 4] = [
    "1 answer 0 cost 3 spent 3\n",
    "2 refused 7 budget 3 2\n",
    "3 answer 0 cost 2 spent 5\n",
    "end 3 spent 5\n",
];

#[test]
fn each_call_that_fails_a_run(rt: HostRuntime) -> Result<(), Fail> {
    let rows = [
        [8, 8, 8, 9].as_slice(),
        &[10, 11, 12, 13],
        &[15, 17, 21, 21],
    ];
    each_call_on_asks(&rt, &RUN, &ANSWERS, rows)
}

#[test]
fn each_call_that_fails_a_replay(rt: HostRuntime) -> Result<(), Fail> {
    let rows = [
        [11, 11, 11, 12].as_slice(),
        &[13, 14, 15, 16],
        &[18, 20, 24, 24],
    ];
    each_call_on_asks(&rt, &REPLAY, &ANSWERS, rows)
}

#[test]
fn each_call_that_fails_a_rehearsal(rt: HostRuntime) -> Result<(), Fail> {
    let [one, two, three, end] = ANSWERS;
    // The first line is written before the queries are opened.
    let rows = [
        [6, 8, 8, 8, 9].as_slice(),
        &[8, 10, 11, 12, 13],
        &[11, 15, 17, 21, 21],
    ];
    each_call_on_asks(&rt, &REHEARSE, &["rehearsal\n", one, two, three, end], rows)
}

#[test]
fn each_call_that_fails_a_sample(rt: HostRuntime) -> Result<(), Fail> {
    let command = Command {
        words: &["sample", "1"],
        texts: OF_CENSUS,
        writes: &[
            "records 1\n",
            "1 answer 0 cost 1 spent 1\n",
            "2 answer 0 cost 1 spent 2\n",
            "3 answer #0 cost 3 spent 5\n",
            "end 3 spent 5\n",
        ],
    };
    each_call(&rt, &command, &[(AT_ONCE, &[0; 5]), (7, &[0; 5])])
}

#[test]
fn each_call_that_fails_a_post(rt: HostRuntime) -> Result<(), Fail> {
    let command = Command {
        words: &["post", "pipeline", "data", "women", "floor"],
        texts: OF_CENSUS,
        writes: &["1 answer 7 cost 1 spent 1\nend 1 spent 1\n"],
    };
    each_call(&rt, &command, &[(AT_ONCE, &[6]), (7, &[52])])
}

#[test]
fn each_call_that_fails_a_group(rt: HostRuntime) -> Result<(), Fail> {
    let command = Command {
        words: &BY_DISTRICT,
        texts: OF_CENSUS,
        writes: &["1 answer (4;1;2) cost 1 spent 1\nend 1 spent 1\n"],
    };
    each_call(&rt, &command, &[(AT_ONCE, &[6]), (7, &[52])])
}
