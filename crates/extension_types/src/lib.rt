//! The extension types: what their functions take and give, and which functions an environment knows.
#![tactic(auto)]

pub use typing_spec::{
    ArgumentCheck, ExtensionFunctionType, ExtensionInitializationError, ExtensionSchema,
    ExtensionSchemas, FuncMultiplyDefinedError, all_objects, datetime, decimal, ipaddr,
};
