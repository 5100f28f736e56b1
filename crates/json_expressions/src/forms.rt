//! The forms of the objects that stand for expressions in JSON.

ghost use Rattle.std.specs.Prelude.{◌≡◌};
ghost use Rattle.json_expressions.specs.Forms.{binary_named, call_named, form_named, list_form_named, other_form_named, sign_named, unary_named, var_named};

use policy_expressions::{BinaryOp, UnaryOp, Var};

/// What an object with one member says.
#[derive(Clone, Copy)]
pub(crate) enum Form {
    /// The id of an entity.
    Id,
    /// A variable.
    Var,
    /// An operator of one operand.
    Unary(UnaryOp),
    /// What is made of a list of operands.
    List(ListForm),
    /// An attribute of an attribute .. of an operand.
    Get,
    /// The test for an attribute.
    Has,
    /// The test of a string against a pattern.
    Like,
    /// The test for the type of an id.
    Is,
    /// The call of an extension function.
    Call,
    /// A record.
    Record,
}

/// What is made of a list of operands.
#[derive(Clone, Copy)]
pub(crate) enum ListForm {
    /// They are joined from the left.
    Fold(Junction),
    /// Tests and their branches in turn, and last what stands where no test holds.
    If,
    /// An operator of two operands.
    Binary(BinaryOp),
}

/// How operands are joined.
#[derive(Clone, Copy, Debug)]
pub enum Junction {
    /// By `&&`.
    All,
    /// By `||`.
    Any,
}

fn unary_named(key: &str) -> Option<UnaryOp>
    ensures { result ≡ unary_named key.now }
{
    match key {
        "not" => Some(UnaryOp::Not),
        "neg" => Some(UnaryOp::Neg),
        "isEmpty" => Some(UnaryOp::IsEmpty),
        _ => None,
    }
}

// Operators that are spelled by signs and words of the language.
fn sign_named(key: &str) -> Option<BinaryOp>
    ensures { result ≡ sign_named key.now }
{
    match key {
        "==" => Some(BinaryOp::Eq),
        "<" => Some(BinaryOp::Less),
        "<=" => Some(BinaryOp::LessEq),
        "+" => Some(BinaryOp::Add),
        "-" => Some(BinaryOp::Sub),
        "*" => Some(BinaryOp::Mul),
        "in" => Some(BinaryOp::In),
        _ => None,
    }
}

// Those that are spelled as calls.
fn call_named(key: &str) -> Option<BinaryOp>
    ensures { result ≡ call_named key.now }
{
    match key {
        "contains" => Some(BinaryOp::Contains),
        "containsAll" => Some(BinaryOp::ContainsAll),
        "containsAny" => Some(BinaryOp::ContainsAny),
        "getTag" => Some(BinaryOp::GetTag),
        "hasTag" => Some(BinaryOp::HasTag),
        _ => None,
    }
}

fn binary_named(key: &str) -> Option<BinaryOp>
    ensures { result ≡ binary_named key.now }
{
    match sign_named(key) {
        Some(op) => Some(op),
        None => call_named(key),
    }
}

fn list_form_named(key: &str) -> Option<ListForm>
    ensures { result ≡ list_form_named key.now }
{
    match key {
        "all" => Some(ListForm::Fold(Junction::All)),
        "any" => Some(ListForm::Fold(Junction::Any)),
        "if" => Some(ListForm::If),
        _ => binary_named(key).map(ListForm::Binary),
    }
}

fn other_form_named(key: &str) -> Option<Form>
    ensures { result ≡ other_form_named key.now }
{
    match key {
        "id" => Some(Form::Id),
        "var" => Some(Form::Var),
        "get" => Some(Form::Get),
        "has" => Some(Form::Has),
        "like" => Some(Form::Like),
        "is" => Some(Form::Is),
        "record" => Some(Form::Record),
        "call" => Some(Form::Call),
        _ => unary_named(key).map(Form::Unary),
    }
}

/// The form that the name of an object's one member says.
pub(crate) fn form_named(key: &str) -> Option<Form>
    ensures { result ≡ form_named key.now }
{
    match list_form_named(key) {
        Some(form) => Some(Form::List(form)),
        None => other_form_named(key),
    }
}

/// The variable that a text names.
pub(crate) fn var_named(text: &str) -> Option<Var>
    ensures { result ≡ var_named text.now }
{
    match text {
        "principal" => Some(Var::Principal),
        "action" => Some(Var::Action),
        "resource" => Some(Var::Resource),
        "context" => Some(Var::Context),
        _ => None,
    }
}
