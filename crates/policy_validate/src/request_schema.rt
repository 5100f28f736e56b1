//! Whether requests conform to a schema.

ghost use Rattle.conformance.specs.Misfits.{knows};
ghost use Rattle.conformance.specs.RequestRules.{IsRequestAnswer, first_request_fault};
ghost use Rattle.schema_core.specs.Schema.{SchemaData};

use crate::{CoreSchema, RequestValidationError};
use entity_store::Request;
use schema_core::ValidatorSchema;
use std::alloc::Global;
use typing_spec::ExtensionSchemas;

/// What requests can conform to.
pub trait RequestSchema {
    // The schema that it stands for.
    ghost schema_of: { Self → SchemaData };

    /// Whether the request conforms to the schema.
    ///
    /// Errs with the first rule that is broken, in the order in which [`conformance::validate_request`] says
    /// them. A request that conforms takes no memory.
    fn validate_request(
        &self,
        alloc: Global,
        request: &Request,
        extensions: &ExtensionSchemas<'_>,
    ) -> Result<(), RequestValidationError>
        ensures { IsRequestAnswer
            (first_request_fault (schema_of self.now) (knows extensions.now) request.now) result };
}

impl RequestSchema for ValidatorSchema {
    ghost schema_of = { λ s. s };

    fn validate_request(
        &self,
        alloc: Global,
        request: &Request,
        extensions: &ExtensionSchemas<'_>,
    ) -> Result<(), RequestValidationError> {
        conformance::validate_request(alloc, self, request, extensions)
    }
}

impl<'a> RequestSchema for CoreSchema<'a> {
    ghost schema_of = { λ s. s };

    fn validate_request(
        &self,
        alloc: Global,
        request: &Request,
        extensions: &ExtensionSchemas<'_>,
    ) -> Result<(), RequestValidationError> {
        conformance::validate_request(alloc, self.schema(), request, extensions)
    }
}
