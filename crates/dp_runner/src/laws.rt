//! Where a run does its work. Each law is the contract of a function that does nothing.
ghost use Rattle.dp_runner.specs.Laws.{CountLaw, CheckLaw, AccountLaw, RunLaw, ReplayLaw, RehearseLaw, RefusalLaw, LongLaw};
ghost use Rattle.dp_runner.specs.ReleaseLaws.{PostLaw, GroupLaw};
ghost use Rattle.dp_runner.specs.SampleLaw.{SampleLaw};
ghost use Rattle.dp_runner.specs.SessionLaws.{RunsOutLaw, LimitLaw, TranscriptLaw};

/// Where the words are of the form of `count`, its files are there and within their limits, and its draws are enough,
/// the run writes the line of the answer and ends with 0.
pub fn count_law()
    ensures { CountLaw }
{}

/// Where the words are of the form of `check`, its file is there and its text is an accepted pipeline, the run writes
/// the stages of the pipeline and ends with 0.
pub fn check_law()
    ensures { CheckLaw }
{}

/// Where the words are of the form of `account`, its files are there, its pipeline is accepted, and there are at most
/// 2^20 query lines, each of at most 65,536 bytes, the run writes the line of each query and the end line and ends with
/// 0.
pub fn account_law()
    ensures { AccountLaw }
{}

/// Where the words are of the form of `run`, its files are there and within their limits, its pipeline is accepted, no
/// query line is over, and the source that is handed in gives the draws of all queries, the run writes the line of each
/// query by its own part of these draws, and the end line, ends with 0 and leaves the source in the state after them.
pub fn run_law()
    ensures { RunLaw }
{}

/// The same of `replay`, by the draws in its file; the source that is handed in stays as it was.
pub fn replay_law()
    ensures { ReplayLaw }
{}

/// The same of `rehearse`, after its first line and by the draws of its seed; the source that is handed in stays as it
/// was.
pub fn rehearse_law()
    ensures { RehearseLaw }
{}

/// Where the words are of the form of `sample`, the run writes the number of records and the transcript of its queries
/// by draws of 0, ends with 0 and leaves the source that is handed in as it was: zeros are draws for every query.
pub fn sample_law()
    ensures { SampleLaw }
{}

/// Where the words are of the form of `post`, its files are there and within their limits, its pipeline is accepted,
/// and the source that is handed in gives the draws of the release, the run writes the line of its changed answer and
/// the end line, ends with 0 and leaves the source in the state after these draws. A refused release takes none.
pub fn post_law()
    ensures { PostLaw }
{}

/// The same of `group`, by the draws of the release on the group of each text.
pub fn group_law()
    ensures { GroupLaw }
{}

/// A text of queries on data, by the draws of all queries taken in order: up to a query whose draws the source does not
/// give, up to the first line that is over, or whole, with the end line. Each line is written by its own part of the
/// draws, and the source is left where taking leaves it.
pub fn session_law()
    ensures runs_out { RunsOutLaw }
    ensures limit { LimitLaw }
    ensures transcript { TranscriptLaw }
{}

/// Where the words are of the form of `check`, its file is there and its text is refused with a number, the run writes
/// nothing and stops with that number, which is from 1 to 9.
pub fn refusal_law()
    ensures { RefusalLaw }
{}

/// A text of more than 2^20 bytes is no pipeline: it is refused with 9.
pub fn long_law()
    ensures { LongLaw }
{}
