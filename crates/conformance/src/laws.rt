//! The rules of requests and stores say what typing asks of them.

ghost use Rattle.conformance.specs.Laws.{NothingIsWrongWithMembers, RequestRulesAreExact, StoreRulesAreExact, AllFunctionsAreKnown};
ghost use Rattle.conformance.specs.Links.{LinksAreEnough};

/// Where all extension functions are there, nothing is wrong exactly with the values of a type.
pub fn nothing_is_wrong_with_members()
    ensures { NothingIsWrongWithMembers }
{}

/// A whole request breaks no rule exactly where it conforms.
pub fn request_rules_are_exact()
    ensures { RequestRulesAreExact }
{}

/// A store breaks no rule exactly where it conforms.
pub fn store_rules_are_exact()
    ensures { StoreRulesAreExact }
{}

/// With all extensions, what is found of a request does not depend on the extensions.
pub fn all_functions_are_known()
    ensures { AllFunctionsAreKnown }
{}

/// Where entities may have their parents, they may have all of their ancestors.
pub fn links_are_enough()
    ensures { LinksAreEnough }
{}
