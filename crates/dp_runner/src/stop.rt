ghost use Rattle.std.specs.Prelude.{◌≡◌};
ghost use Rattle.dp_runner.specs.Stops.{row_of, refused_line};
ghost use Rattle.dp_runner.specs.declared.stop.Stop.TheVariants as stop;

use dp_count::{Failed, NoMemory};
use dp_io::{LineFault, OpenFault, WholeFault};
use dp_pipeline::PipelineFault;
use dp_records::DataFault;

/// Why a run ended before its end.
#[derive(Clone, Copy, Debug, PartialEq, Eq)]
pub(crate) enum Stop {
    /// The words are of no form.
    Usage,
    /// The text of a pipeline is refused, with a number from 1 to 9.
    Pipeline(u8),
    /// A file could not be read.
    ReadFault,
    /// The output could not be written.
    WriteFault,
    /// A draw could not be taken.
    DrawFault,
    /// A file is longer than its limit.
    TooLong,
    /// A query line is longer than its limit, or there are more lines than their limit.
    QueryLimit,
    /// Memory ran out.
    NoMemory,
}

/// What a stop shows.
#[derive(Clone, Copy, Debug, PartialEq, Eq)]
pub(crate) struct StopRow {
    /// The status that the program ends with.
    pub(crate) status: u8,
    /// The line on the error output, with its line feed.
    pub(crate) line: &'static str,
}

impl Stop {
    /// The table of the stops.
    pub(crate) fn row(self) -> StopRow
        ensures status { result.status ≡ (row_of self).status }
        ensures line { result.line.now ≡ (row_of self).line }
    {
        let (status, line) = match self {
            Stop::Usage => (2, "dp: usage\n"),
            Stop::Pipeline(number) => (3, refused_line(number)),
            Stop::ReadFault => (4, "dp: read fault\n"),
            Stop::WriteFault => (5, "dp: write fault\n"),
            Stop::DrawFault => (6, "dp: draw fault\n"),
            Stop::TooLong => (7, "dp: too long\n"),
            Stop::QueryLimit => (8, "dp: query limit\n"),
            Stop::NoMemory => (9, "dp: no memory\n"),
        };
        StopRow { status, line }
    }
}

/// The line of a refused pipeline. It has one digit, since the number is from 1 to 9.
fn refused_line(number: u8) -> &'static str
    ensures { result.now ≡ refused_line number }
{
    match number % 10 {
        1 => "dp: pipeline refused 1\n",
        2 => "dp: pipeline refused 2\n",
        3 => "dp: pipeline refused 3\n",
        4 => "dp: pipeline refused 4\n",
        5 => "dp: pipeline refused 5\n",
        6 => "dp: pipeline refused 6\n",
        7 => "dp: pipeline refused 7\n",
        8 => "dp: pipeline refused 8\n",
        9 => "dp: pipeline refused 9\n",
        _ => "dp: pipeline refused 0\n",
    }
}

impl From<NoMemory> for Stop {
    ghost from_gives = { λ _ e. e ≡ stop.NoMemory };

    fn from(_: NoMemory) -> Self {
        Stop::NoMemory
    }
}

impl From<OpenFault> for Stop {
    ghost use Rattle.std.specs.Prelude.{◌≡◌};
    ghost use Rattle.dp_runner.specs.Stops.{stop_of_open};

    ghost from_gives = { λ fault e. e ≡ stop_of_open fault };

    fn from(fault: OpenFault) -> Self {
        match fault {
            OpenFault::Failed => Stop::ReadFault,
            OpenFault::NoMemory => Stop::NoMemory,
        }
    }
}

impl From<WholeFault> for Stop {
    ghost use Rattle.std.specs.Prelude.{◌≡◌};
    ghost use Rattle.dp_runner.specs.Stops.{stop_of_whole};

    ghost from_gives = { λ fault e. e ≡ stop_of_whole fault };

    fn from(fault: WholeFault) -> Self {
        match fault {
            WholeFault::Failed => Stop::ReadFault,
            WholeFault::TooLong => Stop::TooLong,
            WholeFault::NoMemory => Stop::NoMemory,
        }
    }
}

impl From<DataFault> for Stop {
    ghost use Rattle.std.specs.Prelude.{◌≡◌};
    ghost use Rattle.dp_runner.specs.Stops.{stop_of_data};

    ghost from_gives = { λ fault e. e ≡ stop_of_data fault };

    fn from(fault: DataFault) -> Self {
        match fault {
            DataFault::ReadFault => Stop::ReadFault,
            DataFault::TooLong => Stop::TooLong,
            DataFault::NoMemory => Stop::NoMemory,
        }
    }
}

impl From<LineFault> for Stop {
    ghost use Rattle.std.specs.Prelude.{◌≡◌};
    ghost use Rattle.dp_runner.specs.Stops.{stop_of_line};

    ghost from_gives = { λ fault e. e ≡ stop_of_line fault };

    fn from(fault: LineFault) -> Self {
        match fault {
            LineFault::Failed => Stop::ReadFault,
            LineFault::TooLong => Stop::QueryLimit,
        }
    }
}

impl From<PipelineFault> for Stop {
    ghost use Rattle.std.specs.Prelude.{◌≡◌};
    ghost use Rattle.dp_runner.specs.Stops.{stop_of_pipeline};

    ghost from_gives = { λ fault e. e ≡ stop_of_pipeline fault };

    fn from(fault: PipelineFault) -> Self {
        match fault {
            PipelineFault::Refused(number) => Stop::Pipeline(number),
            PipelineFault::NoMemory => Stop::NoMemory,
        }
    }
}
