// The planner of contexts, for site configurators (RULES, section 11): from the parents of contexts to their global contexts.
#![tactic(auto)]

ghost use Rattle.std.specs.Prelude.{◌≡◌, true, false, ◌≤◌, length, replicate};
ghost use Rattle.rules.specs.Refusals.{pick, outcome_number, given_or};
ghost use Rattle.machine.specs.Calls.{any};
ghost use Rattle.planner.specs.Plan.{is_count, is_missing, plan_of};
ghost use Rattle.planner.specs.Ways.{ends, marked};

use rules::Refusal;
use rules::domains::with_bit;

// What stands in a list for a context that has no parent (RULES 11.1). A list is bytes from outside, one a context, so a number stands for none there.
pub const NO_PARENT: u8 = 255;

// A parent is none of so many contexts.
fn is_missing(parent: u8, count: usize) -> bool
    ensures { result ≡ is_missing count parent }
{
    parent != NO_PARENT && count <= usize::from(parent)
}

// Some parent of a list is none of its contexts.
fn any_missing(parents: &[u8]) -> bool
    ensures { result ≡ any (is_missing (length parents.now)) parents.now }
{
    let count = parents.len();
    parents.iter().any(|parent| is_missing(*parent, count))
}

// Goes up from a context, parent by parent, and puts the context's domain at the place of each one that it comes to, its own first. A way that does not end
// within as many contexts as there are leads round in a cycle.
#[tactic(auto, using(crate::proofs::Ways::out_ends, crate::proofs::Ways::none_left, crate::proofs::Ways::goes_up))]
fn mark_way(parents: &[u8], contexts: &mut [u16; 16], context: u16) -> Result<(), Refusal>
    requires { length parents.now ≤ 16 }
    ensures number { outcome_number result ≡ pick (ends parents.now (length parents.now) context) 0 32 }
    ensures contexts_after { contexts.new ≡ marked parents.now (length parents.now) context context contexts.old }
{
    let mut at = usize::from(context);
    for _step in 0..parents.len() {
        let Some(parent) = parents.get(at) else {
            return Ok(());
        };
        contexts[at] = with_bit(contexts[at], context);
        at = usize::from(*parent);
    }
    if at < parents.len() {
        return Err(Refusal::Cycle);
    }
    Ok(())
}

// The contexts of a list that neither 30 nor 31 refuses.
#[tactic(auto, using(crate::proofs::Marks::none_gathered, crate::proofs::Marks::one_more_gathered, crate::proofs::Marks::planned_round, crate::proofs::Marks::planned_ways))]
fn plan_ways(parents: &[u8]) -> Result<[u16; 16], Refusal>
    requires counted { is_count (length parents.now) ≡ true }
    requires there { any (is_missing (length parents.now)) parents.now ≡ false }
    ensures number { outcome_number result ≡ (plan_of parents.now).number }
    ensures contexts { given_or (replicate 16 0) result ≡ (plan_of parents.now).contexts }
{
    let mut contexts = [0u16; 16];
    for context in 0..parents.len() as u16 {
        mark_way(parents, &mut contexts, context)?;
    }
    Ok(contexts)
}

// The plan of a list of contexts, a byte each: the number of its parent, or NO_PARENT (RULES, section 11). It is the global context of each context, in sixteen
// places (RULES 11.3, 11.4).
#[tactic(auto, using(crate::proofs::Numbers::planned_count, crate::proofs::Numbers::planned_missing))]
pub fn plan(parents: &[u8]) -> Result<[u16; 16], Refusal>
    ensures number { outcome_number result ≡ (plan_of parents.now).number }
    ensures contexts { given_or (replicate 16 0) result ≡ (plan_of parents.now).contexts }
{
    // One context at least, and a domain for each (RULES 11.4). Tested here and not by a function, so that the compiler knows the bound: a ring of sixteen takes a quarter less.
    if parents.is_empty() || 16 < parents.len() {
        return Err(Refusal::WrongCount);
    }
    if any_missing(parents) {
        return Err(Refusal::NoSuchParent);
    }
    plan_ways(parents)
}
