//! How findings on the names, the scope and the whole of a policy read.

ghost use Rattle.std.specs.Prelude.{◌≡◌, None, Some, IfOk, option_map, string_bytes};
ghost use Rattle.findings.specs.Errors.{hint_text};
ghost use Rattle.findings.specs.Texts.{entity_type_message, action_id_message, enum_entity_text, enum_message, enum_help, application_message, in_help, violation_message, too_deep_message, impossible_message};

use crate::Diagnostic;
use crate::pieces::{StringLiteral, for_policy, listed};
use findings::{
    EntityDerefLevelViolation, ImpossiblePolicy, InvalidActionApplication, InvalidEnumEntity,
    InvalidEnumEntityError, TooDeep, UnrecognizedActionId, UnrecognizedEntityType,
};
use policy_expressions::Loc;
use policy_values::Text;
use std::alloc::{AllocError, Global};

impl Diagnostic for UnrecognizedEntityType {
    ghost message_text = { λ e. entity_type_message e.policy_id e.actual_entity_type };

    ghost help_text = { λ _. None };

    ghost place = { λ e. e.source_loc };

    fn message(&self, alloc: Global) -> Result<Text, AllocError> {
        let ty = &self.actual_entity_type;
        let text = format!(in alloc; "unrecognized entity type `{ty}`")?;
        for_policy(alloc, &self.policy_id, text.as_str())
    }

    fn help(&self, _alloc: Global) -> Result<Option<Text>, AllocError> {
        Ok(None)
    }

    fn location(&self) -> Option<Loc> {
        self.source_loc
    }
}

impl Diagnostic for UnrecognizedActionId {
    ghost message_text = { λ e. action_id_message e.policy_id e.actual_action_id };

    ghost help_text = { λ e. option_map hint_text e.hint };

    ghost place = { λ e. e.source_loc };

    fn message(&self, alloc: Global) -> Result<Text, AllocError> {
        let uid = &self.actual_action_id;
        let text = format!(in alloc; "unrecognized action `{uid}`")?;
        for_policy(alloc, &self.policy_id, text.as_str())
    }

    fn help(&self, alloc: Global) -> Result<Option<Text>, AllocError> {
        match &self.hint {
            Some(hint) => {
                let text = format!(in alloc; "{hint}")?;
                Ok(Some(Text::from_string(text)?))
            }
            None => Ok(None),
        }
    }

    fn location(&self) -> Option<Loc> {
        self.source_loc
    }
}

impl Diagnostic for InvalidEnumEntity {
    ghost message_text = { λ e. enum_message e.policy_id e.err.uid };

    ghost help_text = { λ e. Some (enum_help e.err.choices) };

    ghost place = { λ e. e.source_loc };

    fn message(&self, alloc: Global) -> Result<Text, AllocError> {
        let id = &self.policy_id;
        let text = self.err.message(alloc)?;
        let text = format!(in alloc; "for policy `{id}`: {text}")?;
        Text::from_string(text)
    }

    fn help(&self, alloc: Global) -> Result<Option<Text>, AllocError> {
        self.err.help(alloc)
    }

    fn location(&self) -> Option<Loc> {
        self.source_loc
    }
}

impl Diagnostic for InvalidEnumEntityError {
    ghost message_text = { λ e. enum_entity_text e.uid };

    ghost help_text = { λ e. Some (enum_help e.choices) };

    ghost place = { λ _. None };

    fn message(&self, alloc: Global) -> Result<Text, AllocError> {
        let uid = &self.uid;
        let eid = StringLiteral(uid.eid.as_text());
        let text = format!(in alloc;
            "entity `{uid}` is of an enumerated entity type, but `{eid}` is not declared as a valid eid"
        )?;
        Text::from_string(text)
    }

    fn help(&self, alloc: Global) -> Result<Option<Text>, AllocError> {
        let choices = listed(alloc, self.choices.as_slice())?;
        let text = format!(in alloc; "valid entity eids: {choices}")?;
        let text = Text::from_string(text)?;
        Ok(Some(text))
    }

    fn location(&self) -> Option<Loc> {
        None
    }
}

impl Diagnostic for InvalidActionApplication {
    ghost message_text = { λ e. application_message e.policy_id };

    ghost help_text = { λ e. in_help e.would_in_fix_principal e.would_in_fix_resource };

    ghost place = { λ e. e.source_loc };

    fn message(&self, alloc: Global) -> Result<Text, AllocError> {
        for_policy(
            alloc,
            &self.policy_id,
            "unable to find an applicable action given the policy scope constraints",
        )
    }

    fn help(&self, alloc: Global) -> Result<Option<Text>, AllocError> {
        let clauses = match (self.would_in_fix_principal, self.would_in_fix_resource) {
            (true, false) => "try replacing `==` with `in` in the principal clause",
            (false, true) => "try replacing `==` with `in` in the resource clause",
            (true, true) => {
                "try replacing `==` with `in` in the principal clause and the resource clause"
            }
            (false, false) => return Ok(None),
        };
        Ok(Some(Text::from_str(alloc, clauses)?))
    }

    fn location(&self) -> Option<Loc> {
        self.source_loc
    }
}

impl Diagnostic for EntityDerefLevelViolation {
    ghost message_text = { λ e. violation_message e.policy_id e.violation_kind };

    ghost help_text = { λ _. None };

    ghost place = { λ e. e.source_loc };

    fn message(&self, alloc: Global) -> Result<Text, AllocError> {
        let kind = self.violation_kind;
        let text = format!(in alloc; "{kind}")?;
        for_policy(alloc, &self.policy_id, text.as_str())
    }

    fn help(&self, _alloc: Global) -> Result<Option<Text>, AllocError> {
        Ok(None)
    }

    fn location(&self) -> Option<Loc> {
        self.source_loc
    }
}

impl Diagnostic for TooDeep {
    ghost message_text = { λ e. too_deep_message e.policy_id };

    ghost help_text = { λ _. None };

    ghost place = { λ e. e.source_loc };

    fn message(&self, alloc: Global) -> Result<Text, AllocError> {
        for_policy(alloc, &self.policy_id, "condition nests deeper than 200")
    }

    fn help(&self, _alloc: Global) -> Result<Option<Text>, AllocError> {
        Ok(None)
    }

    fn location(&self) -> Option<Loc> {
        self.source_loc
    }
}

impl Diagnostic for ImpossiblePolicy {
    ghost message_text = { λ e. impossible_message e.policy_id };

    ghost help_text = { λ _. None };

    ghost place = { λ e. e.source_loc };

    fn message(&self, alloc: Global) -> Result<Text, AllocError> {
        for_policy(
            alloc,
            &self.policy_id,
            "policy is impossible: the policy expression evaluates to false for all valid requests",
        )
    }

    fn help(&self, _alloc: Global) -> Result<Option<Text>, AllocError> {
        Ok(None)
    }

    fn location(&self) -> Option<Loc> {
        self.source_loc
    }
}
