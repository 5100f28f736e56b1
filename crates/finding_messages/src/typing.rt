//! How findings on an expression read.

ghost use Rattle.std.specs.Prelude.{◌≡◌, ◌++◌, None, IfOk, string_bytes, codes};
ghost use Rattle.findings.specs.Finding as plain;
ghost use Rattle.findings.specs.Seen.{unexpected_type, incompatible_types, unsafe_attribute_access, unsafe_optional_attribute_access, unsafe_tag_access, no_tags_allowed, undefined_function, wrong_number_arguments, function_argument_validation};
ghost use Rattle.findings.specs.Texts.{message, help, access_text, unexpected_message, incompatible_message, incompatible_help, tag_message, no_tags_message, count_message};

use crate::Diagnostic;
use crate::pieces::{all_of, for_policy, if_one_type, lub_hint, separated, type_or_this};
use findings::{
    AttributeAccess, EmptySetForbidden, FunctionArgumentValidation, IncompatibleTypes,
    NoTagsAllowed, NonLitExtConstructor, UndefinedFunction, UnexpectedType, UnsafeAttributeAccess,
    UnsafeOptionalAttributeAccess, UnsafeTagAccess, WrongNumberArguments,
};
use policy_expressions::Loc;
use policy_values::{Name, Text};
use std::alloc::{AllocError, Global};

impl Diagnostic for UnexpectedType {
    ghost message_text = { λ e. message e.policy_id (unexpected_type e) };

    ghost help_text = { λ e. help e.policy_id (unexpected_type e) };

    ghost place = { λ e. e.source_loc };

    fn message(&self, alloc: Global) -> Result<Text, AllocError> {
        let text = unexpected(alloc, self)?;
        for_policy(alloc, &self.policy_id, text.as_str())
    }

    fn help(&self, alloc: Global) -> Result<Option<Text>, AllocError> {
        match self.help {
            Some(help) => Ok(Some(Text::from_str(alloc, help.text())?)),
            None => Ok(None),
        }
    }

    fn location(&self) -> Option<Loc> {
        self.source_loc
    }
}

// What was expected, and what was seen.
fn unexpected(alloc: Global, e: &UnexpectedType) -> Result<String, AllocError>
    ensures { IfOk result (λ text. string_bytes text ≡ unexpected_message e.now.expected e.now.actual) }
{
    let expected = separated(alloc, ", or ", e.expected.as_slice())?;
    let actual = &e.actual;
    let text = format!(in alloc; "unexpected type: expected {expected} but saw {actual}")?;
    Ok(text)
}

impl Diagnostic for IncompatibleTypes {
    ghost message_text = { λ e. message e.policy_id (incompatible_types e) };

    ghost help_text = { λ e. help e.policy_id (incompatible_types e) };

    ghost place = { λ e. e.source_loc };

    fn message(&self, alloc: Global) -> Result<Text, AllocError> {
        let types = all_of(alloc, self.types.as_slice())?;
        let text = format!(in alloc; "the types {types} are not compatible")?;
        Text::from_string(text)
    }

    fn help(&self, alloc: Global) -> Result<Option<Text>, AllocError> {
        let text = must_be_compatible(alloc, self)?;
        let text = for_policy(alloc, &self.policy_id, text.as_str())?;
        Ok(Some(text))
    }

    fn location(&self) -> Option<Loc> {
        self.source_loc
    }
}

// What has to be compatible, and how.
fn must_be_compatible(alloc: Global, e: &IncompatibleTypes) -> Result<String, AllocError>
    ensures { IfOk result (λ text. string_bytes text ≡ incompatible_help e.now.hint e.now.context) }
{
    let context = e.context.text();
    let hint = lub_hint(e.hint);
    let text = format!(in alloc; "{context} must have compatible types. {hint}")?;
    Ok(text)
}

impl Diagnostic for UnsafeAttributeAccess {
    ghost message_text = { λ e. message e.policy_id (unsafe_attribute_access e) };

    ghost help_text = { λ e. help e.policy_id (unsafe_attribute_access e) };

    ghost place = { λ e. e.source_loc };

    fn message(&self, alloc: Global) -> Result<Text, AllocError> {
        let access = &self.attribute_access;
        let text = format!(in alloc; "attribute {access} not found")?;
        for_policy(alloc, &self.policy_id, text.as_str())
    }

    fn help(&self, alloc: Global) -> Result<Option<Text>, AllocError> {
        if !self.may_exist {
            return Ok(None);
        }
        let text = Text::from_str(
            alloc,
            "there may be additional attributes that the validator is not able to reason about",
        )?;
        Ok(Some(text))
    }

    fn location(&self) -> Option<Loc> {
        self.source_loc
    }
}

impl Diagnostic for UnsafeOptionalAttributeAccess {
    ghost message_text = { λ e. message e.policy_id (unsafe_optional_attribute_access e) };

    ghost help_text = { λ e. help e.policy_id (unsafe_optional_attribute_access e) };

    ghost place = { λ e. e.source_loc };

    fn message(&self, alloc: Global) -> Result<Text, AllocError> {
        let text = unsafe_optional(alloc, &self.attribute_access)?;
        for_policy(alloc, &self.policy_id, text.as_str())
    }

    fn help(&self, alloc: Global) -> Result<Option<Text>, AllocError> {
        let guard = self.attribute_access.suggested_has_guard(alloc)?;
        let text = format!(in alloc;
            "try testing for the attribute's presence with `{guard} && ..`"
        )?;
        let text = Text::from_string(text)?;
        Ok(Some(text))
    }

    fn location(&self) -> Option<Loc> {
        self.source_loc
    }
}

// Which attribute of what.
fn unsafe_optional(alloc: Global, access: &AttributeAccess) -> Result<String, AllocError>
    ensures { IfOk result (λ text. string_bytes text ≡
        codes "unable to guarantee safety of access to optional attribute " ++ access_text access.now) }
{
    let text = format!(in alloc;
        "unable to guarantee safety of access to optional attribute {access}"
    )?;
    Ok(text)
}

impl Diagnostic for UnsafeTagAccess {
    ghost message_text = { λ e. message e.policy_id (unsafe_tag_access e) };

    ghost help_text = { λ e. help e.policy_id (unsafe_tag_access e) };

    ghost place = { λ e. e.source_loc };

    fn message(&self, alloc: Global) -> Result<Text, AllocError> {
        let text = unsafe_tag(alloc, self)?;
        for_policy(alloc, &self.policy_id, text.as_str())
    }

    fn help(&self, alloc: Global) -> Result<Option<Text>, AllocError> {
        let tag = &self.tag;
        let text = format!(in alloc;
            "try testing for the tag's presence with `.hasTag({tag}) && ..`"
        )?;
        let text = Text::from_string(text)?;
        Ok(Some(text))
    }

    fn location(&self) -> Option<Loc> {
        self.source_loc
    }
}

// Which tag of which type.
fn unsafe_tag(alloc: Global, e: &UnsafeTagAccess) -> Result<String, AllocError>
    ensures { IfOk result (λ text. string_bytes text ≡ tag_message e.now.entity_ty e.now.tag) }
{
    let tag = &e.tag;
    let ty = if_one_type(alloc, &e.entity_ty)?;
    let mut text = format!(in alloc; "unable to guarantee safety of access to tag `{tag}`")?;
    text.push_str(ty.as_str())?;
    Ok(text)
}

impl Diagnostic for NoTagsAllowed {
    ghost message_text = { λ e. message e.policy_id (no_tags_allowed e) };

    ghost help_text = { λ _. None };

    ghost place = { λ e. e.source_loc };

    fn message(&self, alloc: Global) -> Result<Text, AllocError> {
        let text = no_tags(alloc, self)?;
        for_policy(alloc, &self.policy_id, text.as_str())
    }

    fn help(&self, _alloc: Global) -> Result<Option<Text>, AllocError> {
        Ok(None)
    }

    fn location(&self) -> Option<Loc> {
        self.source_loc
    }
}

// Which type has no tags.
fn no_tags(alloc: Global, e: &NoTagsAllowed) -> Result<String, AllocError>
    ensures { IfOk result (λ text. string_bytes text ≡ no_tags_message e.now.entity_ty) }
{
    let ty = type_or_this(alloc, &e.entity_ty)?;
    let text = format!(in alloc;
        "`.getTag()` is not allowed on entities of {ty} because no `tags` were declared on the entity type in the schema"
    )?;
    Ok(text)
}

impl Diagnostic for UndefinedFunction {
    ghost message_text = { λ e. message e.policy_id (undefined_function e) };

    ghost help_text = { λ _. None };

    ghost place = { λ e. e.source_loc };

    fn message(&self, alloc: Global) -> Result<Text, AllocError> {
        let text = undefined(alloc, &self.name)?;
        for_policy(alloc, &self.policy_id, text.as_str())
    }

    fn help(&self, _alloc: Global) -> Result<Option<Text>, AllocError> {
        Ok(None)
    }

    fn location(&self) -> Option<Loc> {
        self.source_loc
    }
}

// Which function there is not.
fn undefined(alloc: Global, name: &Name) -> Result<String, AllocError>
    ensures { IfOk result (λ text. string_bytes text ≡ codes "undefined extension function: " ++ name.now) }
{
    let text = format!(in alloc; "undefined extension function: {name}")?;
    Ok(text)
}

impl Diagnostic for WrongNumberArguments {
    ghost message_text = { λ e. message e.policy_id (wrong_number_arguments e) };

    ghost help_text = { λ _. None };

    ghost place = { λ e. e.source_loc };

    fn message(&self, alloc: Global) -> Result<Text, AllocError> {
        let text = counted(alloc, self.expected, self.actual)?;
        for_policy(alloc, &self.policy_id, text.as_str())
    }

    fn help(&self, _alloc: Global) -> Result<Option<Text>, AllocError> {
        Ok(None)
    }

    fn location(&self) -> Option<Loc> {
        self.source_loc
    }
}

// How many arguments are expected, and how many there are.
fn counted(alloc: Global, expected: usize, actual: usize) -> Result<String, AllocError>
    ensures { IfOk result (λ text. string_bytes text ≡ count_message expected actual) }
{
    let text = format!(in alloc;
        "wrong number of arguments in extension function application. Expected {expected}, got {actual}"
    )?;
    Ok(text)
}

impl Diagnostic for FunctionArgumentValidation {
    ghost message_text = { λ e. message e.policy_id (function_argument_validation e) };

    ghost help_text = { λ _. None };

    ghost place = { λ e. e.source_loc };

    fn message(&self, alloc: Global) -> Result<Text, AllocError> {
        let text = unreadable(alloc, &self.msg)?;
        for_policy(alloc, &self.policy_id, text.as_str())
    }

    fn help(&self, _alloc: Global) -> Result<Option<Text>, AllocError> {
        Ok(None)
    }

    fn location(&self) -> Option<Loc> {
        self.source_loc
    }
}

// What is said of an argument.
fn unreadable(alloc: Global, msg: &Text) -> Result<String, AllocError>
    ensures { IfOk result (λ text. string_bytes text ≡
        codes "error during extension function argument validation: " ++ msg.now) }
{
    let text = format!(in alloc; "error during extension function argument validation: {msg}")?;
    Ok(text)
}

impl Diagnostic for EmptySetForbidden {
    ghost message_text = { λ e. message e.policy_id plain.EmptySetForbidden };

    ghost help_text = { λ _. None };

    ghost place = { λ e. e.source_loc };

    fn message(&self, alloc: Global) -> Result<Text, AllocError> {
        for_policy(
            alloc,
            &self.policy_id,
            "empty set literals are forbidden in policies",
        )
    }

    fn help(&self, _alloc: Global) -> Result<Option<Text>, AllocError> {
        Ok(None)
    }

    fn location(&self) -> Option<Loc> {
        self.source_loc
    }
}

impl Diagnostic for NonLitExtConstructor {
    ghost message_text = { λ e. message e.policy_id plain.NonLitExtConstructor };

    ghost help_text = { λ e. help e.policy_id plain.NonLitExtConstructor };

    ghost place = { λ e. e.source_loc };

    fn message(&self, alloc: Global) -> Result<Text, AllocError> {
        for_policy(
            alloc,
            &self.policy_id,
            "extension constructors may not be called with non-literal expressions",
        )
    }

    fn help(&self, alloc: Global) -> Result<Option<Text>, AllocError> {
        let text = Text::from_str(
            alloc,
            "consider applying extension constructors inside attribute values when constructing entity or context data",
        )?;
        Ok(Some(text))
    }

    fn location(&self) -> Option<Loc> {
        self.source_loc
    }
}
