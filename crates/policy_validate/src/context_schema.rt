//! What a schema says of the contexts of an action.

ghost use Rattle.std.specs.Prelude.{◌≡◌, IfOk};
ghost use Rattle.std.specs.Option.{option_map};
ghost use Rattle.schema_core.specs.Schema.{action_at};
ghost use Rattle.policy_validate.specs.Described.{context_of};

use crate::plain_types::record_type;
use policy_values::EntityUID;
use schema_core::laws::schema_contexts_are_plain;
use schema_core::{Attributes, SchemaType, ValidatorSchema};
use std::alloc::{AllocError, Global};
use std::marker::Model;

/// What a schema says of the contexts of an action: their attributes, which are the schema's own. They have
/// no others.
#[derive(Debug, Drop)]
pub struct ContextSchema<'a> {
    attributes: &'a Attributes,
}

impl<'a> Model for ContextSchema<'a> {
    ghost use Rattle.std.specs.Prelude.{◌≡◌, Some};
    ghost use Rattle.schema_types.specs.Plain.{plain_attrs};
    ghost use Rattle.schema_types.specs.Ty.{Ty, record_of};
    ghost use Rattle.schema_types.specs.TyCode.{coded_ty};
    ghost use Rattle.schema_types.specs.declared.kinds.OpenTag.TheVariants.{ClosedAttributes};

    ghost Value = { Ty };

    ghost coded = { coded_ty };

    ghost view = { λ c. record_of c.attributes.now ClosedAttributes };

    ghost invariant = { λ c. plain_attrs c.attributes.now ≡ Some c.attributes.now };
}

impl<'a> ContextSchema<'a> {
    /// An equal answer, which borrows the same attributes.
    pub fn try_clone(&self) -> Result<ContextSchema<'a>, AllocError>
        ensures { IfOk result (λ c. c ≡ self.now) }
    {
        let attributes = self.attributes;
        Ok(ContextSchema { attributes })
    }
}

impl<'a> PartialEq for ContextSchema<'a> {
    ghost use Rattle.std.specs.Ordering.{is_eq};
    ghost use Rattle.std.specs.Cmp.{partial_equiv_from_equiv};
    ghost use Rattle.std.proofs.lemmas.Cmp.{eq_by_cmp_equiv};
    ghost use Rattle.schema_types.specs.TyOrder.{ty_cmp};
    ghost use Rattle.schema_types.specs.TyLaws.{ty_cmp_total};

    ghost eq = { λ a b. is_eq (ty_cmp a b) };

    ghost laws = { partial_equiv_from_equiv (eq_by_cmp_equiv ty_cmp_total) };

    #[tactic(auto, using(crate::proofs::Contexts::same_contexts))]
    fn eq(&self, other: &ContextSchema<'a>) -> bool {
        self.attributes == other.attributes
    }
}

impl<'a> Eq for ContextSchema<'a> {
    ghost use Rattle.std.proofs.lemmas.Cmp.{eq_by_cmp_equiv};
    ghost use Rattle.schema_types.specs.TyLaws.{ty_cmp_total};

    ghost laws = { eq_by_cmp_equiv ty_cmp_total };
}

impl<'a> crate::traits::ContextSchema for ContextSchema<'a> {
    ghost context = { λ c. c };

    fn context_type(&self, alloc: Global) -> Result<SchemaType, AllocError> {
        record_type(alloc, self.attributes)
    }
}

/// What the schema says of the contexts of the action; none exactly where the action is not declared.
pub fn context_schema_for_action<'a>(
    schema: &'a ValidatorSchema,
    action: &EntityUID,
) -> Option<ContextSchema<'a>>
    ensures { result ≡ option_map context_of (action_at schema.now action.now) }
{
    schema_contexts_are_plain();
    let _actions = schema.action_ids();
    match schema.context_type(action) {
        Some(attributes) => Some(ContextSchema { attributes }),
        None => None,
    }
}
