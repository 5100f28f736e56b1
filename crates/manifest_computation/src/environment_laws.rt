//! Laws of environments of requests.

ghost use Rattle.manifest_computation.specs.Environments.{EnvironmentsAreOfTypes, EnvironmentsAreThere};

/// The environment of the schema that has the type of a request is the environment of the request.
pub fn environments_are_of_types()
    ensures { EnvironmentsAreOfTypes }
{}

/// A whole request that conforms has an environment, which is one of the schema and has the request's type.
pub fn environments_are_there()
    ensures { EnvironmentsAreThere }
{}
