//! Manifests.

ghost use Rattle.std.specs.Prelude.{◌≡◌, None, IfOk, MatchResult};
ghost use Rattle.std.specs.Option.{option_and_then};
ghost use Rattle.serde_json.specs.View.{view};
ghost use Rattle.json_values.specs.Json.{json_of};
ghost use Rattle.manifest_core.specs.ManifestJson.{manifest_data};
ghost use Rattle.manifest_core.specs.Mismatches.{first_mismatch, AreTyped};
ghost use Rattle.manifest_core.specs.Refusals.{IsMismatch};
ghost use Rattle.manifest_core.specs.Reading.{entries_of};
ghost use Rattle.manifest_core.specs.Placed.{entries_fault};
ghost use Rattle.manifest_core.specs.Said.{AreTypedOf, IsSaid, IsManifestRefused};

use crate::copies::copied_tries;
use crate::declared::declared_tries;
use crate::error::EntityManifestFromJsonError;
use crate::faults::first_mismatch;
use crate::listing::{Entry, read_entries};
use crate::placed::entries_fault;
use crate::read::{repeated_type, typed_tries};
use crate::write::write_per_action;
use access_tries::RootAccessTrie;
use entity_store::RequestType;
use json_values::parse_json;
use schema_core::ValidatorSchema;
use serde_json::Value;
use std::alloc::{AllocError, Global};
use std::collections::BTreeMap;
use std::marker::Model;

/// For each type of requests the trie of what is read for a request of that type.
#[derive(Debug, Drop)]
pub struct EntityManifest {
    per_action: BTreeMap<RequestType, RootAccessTrie>,
}

impl Model for EntityManifest {
    ghost use Rattle.manifest_core.specs.Manifest.{Manifest, coded_manifest};

    ghost Value = { Manifest };

    ghost coded = { coded_manifest };

    ghost view = { λ m. m.per_action.entries };
}

impl EntityManifest {
    /// The manifest of these tries.
    pub fn new(per_action: BTreeMap<RequestType, RootAccessTrie>) -> EntityManifest
        ensures { result ≡ per_action.entries }
    {
        EntityManifest { per_action }
    }

    /// An equal manifest.
    pub fn try_clone(&self, alloc: Global) -> Result<EntityManifest, AllocError>
        ensures { IfOk result (λ m. m ≡ self.now) }
    {
        let per_action = copied_tries(alloc, self.per_action())?;
        Ok(EntityManifest { per_action })
    }

    /// The tries by their request types.
    pub fn per_action(&self) -> &BTreeMap<RequestType, RootAccessTrie>
        ensures { result.now.entries ≡ self.now }
    {
        &self.per_action
    }

    /// The manifest that a JSON value says, with exactly the paths whose steps the schema declares.
    ///
    /// Errors: `SerdeJsonParseError` exactly where the value says no manifest (a request type, root or field
    /// that is listed twice makes it none); `MismatchedEntityManifest` exactly where the manifest does not
    /// fit the schema, with what is wrong first in the order of the document: lists in their order; of one
    /// node first `children`, then `tags`, then `ancestorsTrie`.
    pub fn from_json_value(
        alloc: Global,
        value: &Value,
        schema: &ValidatorSchema,
    ) -> Result<EntityManifest, EntityManifestFromJsonError>
        ensures { MatchResult result (IsSaid schema.now (entries_of (view value.now)))
            (IsManifestRefused schema.now (entries_of (view value.now))) }
    {
        let Some(entries) = read_entries(alloc, value)? else {
            return Err(EntityManifestFromJsonError::SerdeJsonParseError);
        };
        if let Some(_) = repeated_type(alloc, entries.as_slice())? {
            return Err(EntityManifestFromJsonError::SerdeJsonParseError);
        }
        EntityManifest::from_entries(alloc, schema, entries)
    }

    /// The manifest that a text of JSON says, as of [`EntityManifest::from_json_value`].
    ///
    /// Errors: those of [`EntityManifest::from_json_value`], and `SerdeJsonParseError` where the text is no
    /// JSON; `serde_json` reads no text that nests deeper than 127.
    pub fn from_json_str(
        alloc: Global,
        text: &str,
        schema: &ValidatorSchema,
    ) -> Result<EntityManifest, EntityManifestFromJsonError>
        ensures { MatchResult result
            (IsSaid schema.now (option_and_then entries_of (json_of text.now)))
            (IsManifestRefused schema.now (option_and_then entries_of (json_of text.now))) }
    {
        let Some(value) = parse_json(alloc, text.as_bytes())? else {
            return Err(EntityManifestFromJsonError::SerdeJsonParseError);
        };
        EntityManifest::from_json_value(alloc, &value, schema)
    }

    // The manifest of the entries, typed; or what is wrong first with them.
    fn from_entries(
        alloc: Global,
        schema: &ValidatorSchema,
        entries: Vec<Entry>,
    ) -> Result<EntityManifest, EntityManifestFromJsonError>
        ensures { MatchResult result (λ m. (entries_fault schema.now entries.items ≡ None) ×
            AreTypedOf schema.now entries.items m)
            (IsMismatch (entries_fault schema.now entries.items)) }
    {
        if let Some(mismatch) = entries_fault(alloc, schema, entries.as_slice())? {
            return Err(EntityManifestFromJsonError::MismatchedEntityManifest(mismatch));
        }
        let per_action = typed_tries(alloc, schema, entries)?;
        Ok(EntityManifest { per_action })
    }

    /// The manifest with exactly the paths whose steps the schema declares, with their marks. It is refused
    /// where it does not fit the schema: with what is wrong first, in the order of request types, and then
    /// of edges.
    pub fn to_typed(
        &self,
        alloc: Global,
        schema: &ValidatorSchema,
    ) -> Result<EntityManifest, EntityManifestFromJsonError>
        ensures { MatchResult result (λ m. (first_mismatch schema.now self.now ≡ None) ×
            AreTyped schema.now self.now m) (IsMismatch (first_mismatch schema.now self.now)) }
    {
        if let Some(mismatch) = first_mismatch(alloc, schema, self.per_action())? {
            return Err(EntityManifestFromJsonError::MismatchedEntityManifest(mismatch));
        }
        let per_action = declared_tries(alloc, schema, self.per_action())?;
        Ok(EntityManifest { per_action })
    }

    /// The manifest as JSON: the object whose member `perAction` lists request types, ascending, each with
    /// its trie.
    pub fn to_json(&self, alloc: Global) -> Result<Value, AllocError>
        ensures { IfOk result (λ v. view v ≡ manifest_data self.now) }
    {
        write_per_action(alloc, self.per_action())
    }
}

impl PartialEq for EntityManifest {
    ghost use Rattle.std.specs.Cmp.{partial_equiv_from_equiv};
    ghost use Rattle.manifest_core.specs.Same.{same_manifests, same_manifests_equiv};

    ghost eq = { same_manifests };

    ghost laws = { partial_equiv_from_equiv same_manifests_equiv };

    /// Whether both have the same request types, with equal tries.
    fn eq(&self, other: &EntityManifest) -> bool {
        self.per_action == other.per_action
    }
}

impl Eq for EntityManifest {
    ghost use Rattle.manifest_core.specs.Same.{same_manifests_equiv};

    ghost laws = { same_manifests_equiv };
}
