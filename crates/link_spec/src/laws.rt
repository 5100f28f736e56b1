//! Laws of links.

ghost use Rattle.link_spec.specs.Laws.{SlotsAreNotRead, LinksFollowTemplates, LinksAreTyped, StaticsAreTyped, TypedEverywhere, LinksHaveKeysOnce, TypedAreSound, LinksAreSound, StaticsAreSound, LinksAreWrittenOut, FilledKeeps, StaticsAreUnlinked, RefusalsAreReported};

use typecheck_rules::laws::refusal_is_reported;
use typing_spec::laws::conditions_are_sound;

/// The typing of an expression without slots does not depend on what stands for the slots.
pub fn slots_are_not_read()
    ensures { SlotsAreNotRead }
{}

/// A link's condition has the type of its template's, or is False.
pub fn links_follow_templates()
    ensures { LinksFollowTemplates }
{}

/// The condition of each link has a type in every environment of the schema.
pub fn links_are_typed()
    ensures { LinksAreTyped }
{}

/// The condition of each policy without slots has a type in every environment of the schema.
pub fn statics_are_typed()
    ensures { StaticsAreTyped }
{}

/// What has a type in every environment of the schema has one in that of each request that an action applies
/// to.
pub fn typed_everywhere()
    ensures { TypedEverywhere }
{}

/// Each record of a link's condition has each of its keys once.
pub fn links_have_keys_once()
    ensures { LinksHaveKeysOnce }
{}

/// A condition that has a type in every environment of the schema keeps what typing promises, for each
/// request that conforms.
pub fn typed_are_sound()
    ensures { TypedAreSound }
{
    conditions_are_sound();
}

/// So does the condition of an accepted link.
pub fn links_are_sound()
    ensures { LinksAreSound }
{
    links_are_typed();
    links_are_written_out();
    links_have_keys_once();
    typed_are_sound();
}

/// And that of an accepted policy without slots.
pub fn statics_are_sound()
    ensures { StaticsAreSound }
{
    statics_are_typed();
    typed_are_sound();
}

/// A link's condition is that of its own scope, without slots and as deep as the template's.
pub fn links_are_written_out()
    ensures { LinksAreWrittenOut }
{}

/// What a template's typed expression passes, the link's passes.
pub fn filled_keeps()
    ensures { FilledKeeps }
{}

/// A policy without slots is looked at in the environments of the schema.
pub fn statics_are_unlinked()
    ensures { StaticsAreUnlinked }
{}

/// Where each name of a template is known, a check that fails in one of its environments has a finding.
pub fn refusals_are_reported()
    ensures { RefusalsAreReported }
{
    refusal_is_reported();
}
