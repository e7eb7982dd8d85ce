ghost use Rattle.std.specs.Prelude.{◌≡◌, map, string_bytes};
ghost use Rattle.dp_runner.specs.Forms.{form_of, form_after};

use crate::account::{AccountForm, account_form};
use crate::check::{CheckForm, check_form};
use crate::count::{CountForm, count_form};
use crate::group::{GroupForm, group_form};
use crate::post::{PostForm, post_form};
use crate::sample::sample_form;
use crate::sessions::{
    RehearseForm, ReplayForm, SessionForm, rehearse_form, replay_form, run_form,
};

/// The words of a command line that has a form: a variant a command.
#[derive(Drop)]
pub(crate) enum Form<'a> {
    /// `count DATA DRAWS LO HI`
    Count(CountForm<'a>),
    /// `check P`
    Check(CheckForm<'a>),
    /// `account P QUERIES`
    Account(AccountForm<'a>),
    /// `run P DATA QUERIES`
    Run(SessionForm<'a>),
    /// `replay P DATA QUERIES DRAWS`
    Replay(ReplayForm<'a>),
    /// `rehearse P DATA QUERIES SEED`
    Rehearse(RehearseForm<'a>),
    /// `sample N`, by the number of records, from 1 to 1,000,000
    Sample(u32),
    /// `post P DATA PLAN POST..`
    Post(PostForm<'a>),
    /// `group P DATA PLAN COLUMN TEXT..`
    Group(GroupForm<'a>),
}

/// The form of the words, if they are of one.
pub(crate) fn form_of(words: &[String]) -> Option<Form<'_>>
    ensures { result ≡ form_of (map string_bytes words.now) }
{
    let [command, words @ ..] = words else {
        return None;
    };
    form_after(command.as_str(), words)
}

/// What a command's word and the words after it say.
fn form_after<'a>(command: &str, words: &'a [String]) -> Option<Form<'a>>
    ensures { result ≡ form_after command.now (map string_bytes words.now) }
{
    match command {
        "count" => Some(Form::Count(count_form(words)?)),
        "check" => Some(Form::Check(check_form(words)?)),
        "account" => Some(Form::Account(account_form(words)?)),
        "run" => Some(Form::Run(run_form(words)?)),
        "replay" => Some(Form::Replay(replay_form(words)?)),
        "rehearse" => Some(Form::Rehearse(rehearse_form(words)?)),
        "sample" => Some(Form::Sample(sample_form(words)?)),
        "post" => Some(Form::Post(post_form(words)?)),
        "group" => Some(Form::Group(group_form(words)?)),
        _ => None,
    }
}
