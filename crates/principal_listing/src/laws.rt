//! Laws of allowed principals and their pages.

ghost use Rattle.principal_listing.specs.Laws.{CandidatesKeepRules, PagesAreAll};

use conformance::laws::request_rules_are_exact;

/// Where every rule holds that does not speak of the principal, every rule holds for each principal of the
/// store to which the action applies.
pub fn candidates_keep_rules()
    ensures { CandidatesKeepRules }
{
    request_rules_are_exact();
}

/// Pages, each resumed after the last id of the one before, give all allowed principals once, in their order.
pub fn pages_are_all()
    ensures { PagesAreAll }
{}
