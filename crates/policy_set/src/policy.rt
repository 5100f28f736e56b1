//! Policies that are evaluated.

ghost use Rattle.std.specs.Prelude.{◌≡◌, false, not, is_some, option_map, IfOk};
ghost use Rattle.std.specs.Option.{option_copied};
ghost use Rattle.policy_expressions.specs.declared.kinds.SlotValues.{SlotValues};
ghost use Rattle.policy_set.specs.Condition.{IsPolicy, has_scope_slot, static_of, written_of};
ghost use Rattle.policy_set.specs.Links.{Fills, linked_policy};

use crate::link::Link;
use crate::{ActionConstraint, Effect, PrincipalOrResourceConstraint, Template};
use policy_expressions::{Expr, SlotValues};
use policy_values::Text;
use std::alloc::{AllocError, Global};
use std::marker::Model;

/// A policy of a set: static, or a link of a template. Its condition has no slot.
#[derive(Debug)]
pub struct Policy {
    // The policy as it would be written by itself: a link has its ids in the places of slots.
    template: Template,
    link: Option<Link>,
}

impl Drop for Policy {
    fn drop(self) {
        let Policy { template, link } = self;
        drop(template);
        drop(link);
    }
}

impl Model for Policy {
    ghost use Rattle.std.specs.Prelude.{◌≡◌, false};
    ghost use Rattle.policy_set.specs.Data.{PolicyData, coded_policy};
    ghost use Rattle.policy_set.specs.Condition.{has_scope_slot, static_of};

    ghost Value = { PolicyData };

    ghost coded = { coded_policy };

    ghost view = { λ p. record (static_of p.template) { link = p.link } };

    ghost invariant = { λ p. has_scope_slot p.template ≡ false };
}

impl Policy {
    /// The static policy that a template without slots is.
    pub fn from_template(template: Template) -> Policy
        requires { has_scope_slot template ≡ false }
        ensures { result ≡ static_of template }
    {
        Policy {
            template,
            link: None,
        }
    }

    /// The link of a template under an id, with an id for each of its slots and for no other.
    pub(crate) fn link(
        alloc: Global,
        template: &Template,
        id: Text,
        values: SlotValues,
    ) -> Result<Policy, AllocError>
        requires { Fills values template.now }
        ensures { IfOk result (λ p. p ≡ linked_policy id values template.now) }
    {
        let written = match template.with_ids(alloc, id, &values) {
            Ok(written) => written,
            Err(e) => {
                drop(values);
                return Err(e);
            }
        };
        let template = match template.id().try_clone() {
            Ok(template) => template,
            Err(e) => {
                drop(values);
                drop(written);
                return Err(e);
            }
        };
        Ok(Policy {
            template: written,
            link: Some(Link { template, values }),
        })
    }

    /// Its id.
    pub fn id(&self) -> &Text
        ensures { result.now ≡ self.now.id }
    {
        self.template.id()
    }

    /// What it does where its condition is true.
    pub fn effect(&self) -> Effect
        ensures { result ≡ self.now.effect }
    {
        self.template.effect()
    }

    /// What its scope asks of the principal.
    pub fn principal_constraint(&self) -> &PrincipalOrResourceConstraint
        ensures { result.now ≡ self.now.principal }
    {
        self.template.principal_constraint()
    }

    /// What its scope asks of the action.
    pub fn action_constraint(&self) -> &ActionConstraint
        ensures { result.now ≡ self.now.action }
    {
        self.template.action_constraint()
    }

    /// What its scope asks of the resource.
    pub fn resource_constraint(&self) -> &PrincipalOrResourceConstraint
        ensures { result.now ≡ self.now.resource }
    {
        self.template.resource_constraint()
    }

    /// Its body.
    pub fn non_scope_constraints(&self) -> &Expr<()>
        ensures { result.now ≡ self.now.body }
    {
        self.template.non_scope_constraints()
    }

    /// Its whole condition, scope and body, which has no slot.
    pub fn condition(&self) -> &Expr<()>
        ensures value { result.now ≡ self.now.condition }
        ensures policy { IsPolicy self.now }
    {
        self.template.condition()
    }

    /// Whether it is a policy of its own, and no link of a template.
    pub fn is_static(&self) -> bool
        ensures { result ≡ not (is_some self.now.link) }
    {
        self.link.is_none()
    }

    /// The id of the template that it links; none, where it is static.
    pub fn template(&self) -> Option<&Text>
        ensures { option_copied result ≡ option_map (λ l. l.template) self.now.link }
    {
        match &self.link {
            Some(link) => Some(&link.template),
            None => None,
        }
    }

    /// The ids that it gives for the slots of its template; none, where it is static.
    pub fn env(&self) -> Option<&SlotValues>
        ensures { option_copied result ≡ option_map (λ l. l.values) self.now.link }
    {
        match &self.link {
            Some(link) => Some(&link.values),
            None => None,
        }
    }

    /// The policy as it would be written by itself: a link with its own scope.
    pub fn written(&self) -> &Template
        ensures { result.now ≡ written_of self.now }
    {
        &self.template
    }
}
