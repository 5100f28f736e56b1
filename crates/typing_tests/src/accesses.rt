//! What an attribute is accessed of, and the guard that is suggested for it.

use crate::lines::{Answers, Part, assert_same, built, document_of, entity_type, failures, uid};
use findings::AttributeAccess;
use policy_expressions::{Expr, Literal, Var};
use policy_values::Text;
use schema_core::{RequestEnv, Type};
use std::alloc::{AllocError, Global};

const DOCUMENT: &str =
    r#"{"schema":{"entityTypes":{"Photo":{},"User":{}},"actions":[{"id":["Action","action"],"principals":["User"],"resources":["Photo"]}]}}"#;

fn user(alloc: Global) -> Result<Part, AllocError> {
    let of_user = Type::named_entity_reference(alloc, entity_type(alloc, "User")?)?;
    let alice = Literal::EntityUID(uid(alloc, "User", "alice")?);
    Ok(Expr::lit(alice, Some(of_user), None))
}

// An `if` that has no type.
fn untyped_if(alloc: Global) -> Result<Part, AllocError> {
    let test = Expr::lit(Literal::Bool(true), None, None);
    let one = Expr::lit(Literal::Long(1), None, None);
    let two = Expr::lit(Literal::Long(2), None, None);
    built(Expr::ite(alloc, test, one, two, None, None))
}

fn base_of(alloc: Global, word: &str) -> Result<Part, AllocError> {
    match word {
        "context" => Ok(Expr::var(Var::Context, None, None)),
        "user" => user(alloc),
        _ => untyped_if(alloc),
    }
}

// What is said of the access to `bar` of `foo` of an expression, and its guard.
struct Accesses;

impl Answers for Accesses {
    fn answer(alloc: Global, asked: &str) -> Result<String, AllocError> {
        let document = document_of(alloc, DOCUMENT)?;
        match document.schema.unlinked_request_envs(alloc)?.first() {
            Some(env) => described(alloc, env, base_of(alloc, asked)?),
            None => Err(AllocError),
        }
    }
}

fn described(alloc: Global, env: &RequestEnv, base: Part) -> Result<String, AllocError> {
    let foo = Expr::get_attr(alloc, base, Text::from_str(alloc, "foo")?, None, None);
    let foo = built(foo)?;
    let access = AttributeAccess::from_expr(alloc, env, &foo, Text::from_str(alloc, "bar")?)?;
    let guard = access.suggested_has_guard(alloc)?;
    format!(in alloc; "{access}; {guard}")
}

#[test]
fn accesses_are_described(rt: HostRuntime) -> Result<(), AllocError> {
    let table = r#"context => `foo.bar` in context for Action::"action"; context.foo has bar
user => `foo.bar` on entity type `User`; e.foo has bar
if => `foo.bar`; e.foo has bar"#;
    let failures = failures::<Accesses>(rt.alloc(), table)?;
    assert_same(&rt, failures.as_str(), "");
    Ok(())
}
