//! The search for a witness.

ghost use Rattle.std.specs.Prelude.{IfOk, IfSome};
ghost use Rattle.schema_core.specs.RequestEnvs.{env_data_of};
ghost use Rattle.edit_witnesses.specs.Witnesses.{IsWitness};

use crate::confirming::confirmed;
use crate::fixing::fix;
use crate::place::{Dice, Place, place_of};
use crate::plan::Plan;
use crate::world::World;
use crate::{Edit, Turn, Witness};
use policy_set::Policy;
use std::alloc::AllocError;
use typecheck_walk::Setting;

// How often the search begins anew, by other choices, and how many changes it makes each time.
const ATTEMPTS: u64 = 8;

const CHANGES: u64 = 48;

// From this attempt on, entities are taken away, too, so that conditions err.
const FORGETFUL: u64 = 4;

/// A witness of an edit in an environment, if one is found. The budget is of stores that are tried, and falls.
pub fn find_witness<'a>(
    at: &Setting<'_, '_, '_, '_>,
    edit: &Edit<'a>,
    turn: Turn,
    steps: &mut u64,
) -> Result<Option<Witness>, AllocError>
    ensures { IfOk result (λ o. IfSome o (IsWitness at.now.schema.now (env_data_of at.now.env.now)
        edit.now.before.now.policies edit.now.after.now.policies turn)) }
{
    let Some(place) = place_of(at) else {
        return Ok(None);
    };
    let plan = Plan::new(&place, edit, turn)?;
    for seed in 0..ATTEMPTS {
        for target in &plan.targets {
            let Some(shown) = attempt(&place, &plan, *target, seed, steps)? else {
                continue;
            };
            if let Some(witness) = confirmed(at, edit, turn, shown)? {
                return Ok(Some(witness));
            }
        }
    }
    Ok(None)
}

// A request and a store on which the target is true and the decision should be turned.
fn attempt<'a>(
    at: &Place<'_, '_>,
    plan: &Plan<'a>,
    target: &'a Policy,
    seed: u64,
    steps: &mut u64,
) -> Result<Option<Witness>, AllocError> {
    let Some(mut world) = World::least(at, Dice::new(seed))? else {
        return Ok(None);
    };
    for _ in 0..CHANGES {
        if *steps == 0 {
            return Ok(None);
        }
        *steps -= 1;
        let Some(shown) = world.shown(at)? else {
            return Ok(None);
        };
        let Some((condition, wanted)) = plan.goal(at, &shown, target, &mut world.dice)? else {
            return Ok(Some(shown));
        };
        if seed >= FORGETFUL && !wanted && world.dice.throw() % 4 == 0 {
            world.forget()?;
        } else {
            fix(at, &shown, &mut world, condition, wanted)?;
        }
    }
    Ok(None)
}
