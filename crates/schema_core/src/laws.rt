//! Laws of schemas.

ghost use Rattle.schema_core.specs.Laws.{HeldTypesArePlain, HeldAttributesArePlain, SchemaTypesArePlain, SchemaContextsArePlain};

/// A type that a schema may hold is its own schema type.
pub fn held_types_are_plain()
    ensures { HeldTypesArePlain }
{}

/// Attributes that a schema may hold are their own schema types.
pub fn held_attributes_are_plain()
    ensures { HeldAttributesArePlain }
{}

/// In a schema the attributes and tags of every entity type are their own schema types.
pub fn schema_types_are_plain()
    ensures { SchemaTypesArePlain }
{}

/// In a schema the context of every action is its own schema type.
pub fn schema_contexts_are_plain()
    ensures { SchemaContextsArePlain }
{}
