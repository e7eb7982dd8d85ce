ghost use Rattle.std.specs.Prelude.{◌≡◌, map, string_bytes, IfOk};
ghost use Rattle.dp_runner.specs.Group.{group_form, group_form_of};

use crate::release::{OneRelease, PlanForm, plan_form_of};
use dp_count::NoMemory;
use dp_domain::{Text, Texts, few_and_one};
use dp_draws::Draws;
use dp_pipeline::Pipeline;
use dp_session::{SessionFault, group_text};
use dp_store::Store;
use std::alloc::Global;
use std::marker::Model;

/// The words of `group P DATA PLAN COLUMN TEXT..`.
#[derive(Drop)]
pub(crate) struct GroupForm<'a> {
    names: PlanForm<'a>,
    column: &'a str,
    texts: &'a [String],
}

impl<'a> Model for GroupForm<'a> {
    ghost use Rattle.std.specs.Prelude.{map, string_bytes};
    ghost use Rattle.dp_runner.specs.Group.{GroupForm};

    ghost Value = { GroupForm };

    ghost view = { λ form. record {
      names = form.names;
      column = form.column.now;
      texts = map string_bytes form.texts.now;
    } };
}

impl OneRelease for GroupForm<'_> {
    ghost use Rattle.dp_runner.specs.Group.{group_slot};
    ghost use Rattle.dp_runner.specs.OneReleaseProof.{single_lines};
    ghost use Rattle.dp_domain.specs.declared.values.Value.TheVariants as value;
    ghost use Rattle.dp_session.specs.Singles.{group_verdict};

    ghost names = { λ form. form.names };

    ghost slot = { λ form found. group_slot form found };

    fn names(&self) -> &PlanForm<'_> {
        &self.names
    }

    fn text<D: Draws>(
        &self,
        alloc: Global,
        pipeline: &Pipeline,
        store: &Store,
        draws: &mut D,
    ) -> Result<String, SessionFault> {
        let texts = texts_of(alloc, self.texts)?;
        let plan = self.names.plan().as_bytes();
        group_text(
            alloc,
            pipeline,
            store,
            plan,
            self.column.as_bytes(),
            texts,
            draws,
        )
    }

    ghost whole_lines = { λ form found draws.
        single_lines (group_verdict found.pipeline form.names.plan form.column form.texts)
        (value.Rows found.rows) draws };
}

/// What the words after `group` say, if they are of its form.
pub(crate) fn group_form(words: &[String]) -> Option<GroupForm<'_>>
    ensures { result ≡ group_form (map string_bytes words.now) }
{
    let [pipeline_name, data_name, plan, column, texts @ ..] = words else {
        return None;
    };
    group_form_of(
        pipeline_name.as_str(),
        data_name.as_str(),
        plan.as_str(),
        column.as_str(),
        texts,
    )
}

/// Two files, a plan, a column and 1 to 1,023 texts, if the words say so.
fn group_form_of<'a>(
    pipeline_name: &'a str,
    data_name: &'a str,
    plan: &'a str,
    column: &'a str,
    texts: &'a [String],
) -> Option<GroupForm<'a>>
    ensures { result ≡ group_form_of pipeline_name.now data_name.now plan.now column.now
        (map string_bytes texts.now) }
{
    if !few_and_one(texts.len() as u64) {
        return None;
    }
    let names = plan_form_of(pipeline_name, data_name, plan)?;
    Some(GroupForm {
        names,
        column,
        texts,
    })
}

/// The bytes of words, in memory of their own.
fn texts_of(alloc: Global, words: &[String]) -> Result<Texts, NoMemory>
    ensures { IfOk result (λ texts. texts ≡ map string_bytes words.now) }
{
    let mut texts = Vec::with_capacity(alloc, words.len())?;
    for word in words {
        texts.push(Text::from_vec(Vec::from_slice(alloc, word.as_bytes())?))?;
    }
    Ok(Texts::from_vec(texts))
}
