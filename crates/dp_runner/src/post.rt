ghost use Rattle.std.specs.Prelude.{◌≡◌, ◌≤◌, map, take, string_bytes, option_map, IfSome};
ghost use Rattle.dp_runner.specs.Post.{post_of, posts_of, post_form, post_form_of};

use crate::release::{OneRelease, PlanForm, plan_form_of};
use dp_draws::Draws;
use dp_pipeline::Pipeline;
use dp_post::Post;
use dp_session::{SessionFault, post_text};
use dp_store::Store;
use std::alloc::Global;
use std::marker::Model;

/// The greatest number of changes.
const MOST_POSTS: usize = 16;

/// The words of `post P DATA PLAN POST..`.
#[derive(Drop)]
pub(crate) struct PostForm<'a> {
    names: PlanForm<'a>,
    posts: [Post; MOST_POSTS],
    count: usize,
    ghost few: { count ≤ 16 },
}

impl<'a> Model for PostForm<'a> {
    ghost use Rattle.std.specs.Prelude.{take};
    ghost use Rattle.dp_runner.specs.Post.{PostForm};

    ghost Value = { PostForm };

    ghost view = { λ form. record { names = form.names; posts = take form.count form.posts } };
}

impl OneRelease for PostForm<'_> {
    ghost use Rattle.dp_runner.specs.Post.{post_slot};
    ghost use Rattle.dp_runner.specs.OneReleaseProof.{single_lines};
    ghost use Rattle.dp_domain.specs.declared.values.Value.TheVariants as value;
    ghost use Rattle.dp_session.specs.Singles.{post_verdict};

    ghost names = { λ form. form.names };

    ghost slot = { λ form found. post_slot form found };

    fn names(&self) -> &PlanForm<'_> {
        &self.names
    }

    fn text<D: Draws>(
        &self,
        alloc: Global,
        pipeline: &Pipeline,
        store: &Store,
        draws: &mut D,
    ) -> Result<String, SessionFault> {
        let plan = self.names.plan().as_bytes();
        post_text(
            alloc,
            pipeline,
            store,
            plan,
            &self.posts[..self.count],
            draws,
        )
    }

    ghost whole_lines = { λ form found draws.
        single_lines (post_verdict found.pipeline form.names.plan form.posts) (value.Rows found.rows) draws };
}

/// What the words after `post` say, if they are of its form.
pub(crate) fn post_form(words: &[String]) -> Option<PostForm<'_>>
    ensures { result ≡ post_form (map string_bytes words.now) }
{
    let [pipeline_name, data_name, plan, posts @ ..] = words else {
        return None;
    };
    post_form_of(
        pipeline_name.as_str(),
        data_name.as_str(),
        plan.as_str(),
        posts,
    )
}

/// Two files, a plan and its changes, if the words say so.
fn post_form_of<'a>(
    pipeline_name: &'a str,
    data_name: &'a str,
    plan: &'a str,
    words: &[String],
) -> Option<PostForm<'a>>
    ensures { result ≡ post_form_of pipeline_name.now data_name.now plan.now (map string_bytes words.now) }
{
    let names = plan_form_of(pipeline_name, data_name, plan)?;
    let (posts, count) = posts_of(words)?;
    Some(PostForm {
        names,
        posts,
        count,
    })
}

/// From 1 to 16 changes, and how many they are, if each word names one.
fn posts_of(words: &[String]) -> Option<([Post; MOST_POSTS], usize)>
    ensures posts { option_map (λ found. take found.1 found.0) result ≡ posts_of (map string_bytes words.now) }
    ensures few { IfSome result (λ found. found.1 ≤ 16) }
{
    if words.is_empty() || words.len() > MOST_POSTS {
        return None;
    }
    let mut posts = [Post::Floor; MOST_POSTS];
    let mut count = 0;
    for word in words {
        posts[count] = post_of(word.as_str())?;
        count += 1;
    }
    Some((posts, count))
}

/// The change that a word names.
fn post_of(word: &str) -> Option<Post>
    ensures { result ≡ post_of word.now }
{
    match word {
        "cumulate" => Some(Post::Cumulate),
        "floor" => Some(Post::Floor),
        "largest" => Some(Post::Largest),
        _ => None,
    }
}
