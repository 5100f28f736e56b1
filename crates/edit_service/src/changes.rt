//! What an edit changes in each environment.
ghost use Rattle.std.specs.Prelude.{◌≡◌, IfOk, length, map, string_bytes};
ghost use Rattle.schema_core.specs.RequestEnvs.{env_data_of};
ghost use Rattle.policy_compare.specs.Edits.{IsEdit};
ghost use Rattle.edit_service.specs.Changes.{AllHold, Holds};
ghost use Rattle.edit_service.specs.Run.{IsReplyOn, SaysChanges};

use crate::acceptance::refused;
use crate::change::{Change, change_of};
use crate::document::EditDocument;
use crate::reply::Reply;
use crate::status::Status;
use crate::text::edit_text;
use policy_compare::{Edit, compare_in, edit_between};
use policy_set::PolicySet;
use schema_core::{RequestEnv, ValidatorSchema};
use std::alloc::{AllocError, Global};
use typecheck_walk::{Extensions, Setting};
use typing_spec::{ExtensionSchemas, all_objects};

// How many parts of propositions are looked at in all environments together: some half a second.
const STEPS: u64 = 33_554_432;

/// The reply on a document: what is found of its edit, where both sets of policies are accepted.
pub(crate) fn compare(alloc: Global, document: &EditDocument) -> Result<Reply, AllocError>
    ensures { IfOk result (IsReplyOn document.now) }
{
    match refused(alloc, document)? {
        Some(reply) => Ok(reply),
        None => Ok(Reply {
            status: Status::Done,
            text: changes_text(alloc, document)?,
        }),
    }
}

// The text on what is found of the document's edit.
fn changes_text(alloc: Global, document: &EditDocument) -> Result<String, AllocError>
    ensures { IfOk result (λ s. SaysChanges document.now (string_bytes s)) }
{
    let envs = document.schema.unlinked_request_envs(alloc)?;
    let changes = changes_in(
        alloc,
        &document.schema,
        &envs,
        &document.before,
        &document.policies,
    )?;
    edit_text(alloc, &envs, &changes)
}

// What is found of the edit in each environment. Each has its part of the steps.
fn changes_in<'a>(
    alloc: Global,
    schema: &ValidatorSchema,
    envs: &Vec<RequestEnv<'_>>,
    before: &'a PolicySet,
    after: &'a PolicySet,
) -> Result<Vec<Change>, AllocError>
    ensures { IfOk result (λ cs. AllHold schema.now before.now.policies after.now.policies
        (map env_data_of envs.now.items) cs.items) }
{
    let objects = all_objects(alloc)?;
    let schemas = ExtensionSchemas::all_available(alloc, &objects)?;
    let extensions = Extensions::new(&schemas);
    let edit = edit_between(alloc, before, after)?;
    let steps = STEPS / (envs.len() as u64).max(1);
    let mut changes = Vec::new(alloc);
    for env in envs {
        let change = change_in(alloc, schema, &extensions, env, &edit, steps)?;
        changes.push(change)?;
    }
    Ok(changes)
}

// What is found of the edit in an environment.
fn change_in<'a, 's>(
    alloc: Global,
    schema: &'s ValidatorSchema,
    extensions: &Extensions<'s, '_>,
    env: &'a RequestEnv<'a>,
    edit: &Edit<'a>,
    steps: u64,
) -> Result<Change, AllocError>
    requires { IsEdit edit.now }
    ensures { IfOk result (Holds schema.now edit.now.before.now.policies
        edit.now.after.now.policies (env_data_of env.now)) }
{
    let at = Setting {
        alloc,
        schema,
        env,
        extensions,
    };
    let mut steps = steps;
    let found = compare_in(&at, edit, &mut steps)?;
    Ok(change_of(found))
}
