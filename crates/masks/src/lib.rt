// The least mask for a subroutine, for integrators (RULES, section 12): from a machine and a list of pairs of right and page to the smallest local context under which
// all of them are allowed.
#![tactic(auto)]

ghost use Rattle.std.specs.Prelude.{◌≡◌, false, [], ◌∷◌, map, ◌++◌, ◌≤◌, length, drop};
ghost use Rattle.std.specs.Int.Bits.{bit_or};
ghost use Rattle.rules.specs.Refusals.{first, outcome_number, given_or};
ghost use Rattle.machine.specs.Calls.{any};
ghost use Rattle.masks.specs.Least.{right_of, page_in, is_less, pair_checks, least_mask_of};
ghost use Rattle.masks.specs.Search.{need_of, is_unmet, last_domain, least_from, needed_mask, mask_for};

use machine::Machine;
use rules::Refusal;
use rules::domains::{domain_count, with_bit, without_bit};

// How many pairs a list may have (RULES 12.4).
pub const PAIRS: usize = 64;

// The right of a pair, which is one number (RULES 12.1).
fn right_of(pair: u32) -> u16
    ensures { result ≡ right_of pair }
{
    (pair / 65536) as u16
}

// The page of a pair.
fn page_in(pair: u32) -> u16
    ensures { result ≡ page_in pair }
{
    (pair % 65536) as u16
}

// A pair is refused where it names no right or no page (RULES 12.4).
#[tactic(auto, unfolding(crate::specs::Least::pair_checks))]
fn check_pair(pages: u16, pair: u32) -> Result<(), Refusal>
    ensures { outcome_number result ≡ first (pair_checks pages (pair ∷ [])) }
{
    if 1 < right_of(pair) {
        return Err(Refusal::NoSuchRight);
    }
    if pages <= page_in(pair) {
        return Err(Refusal::NoSuchPage);
    }
    Ok(())
}

// The first bad pair refuses a list.
#[tactic(auto, using(crate::proofs::Lists::pairs_next), unfolding(crate::specs::Least::pair_checks))]
fn check_pairs(pages: u16, pairs: &[u32]) -> Result<(), Refusal>
    ensures { outcome_number result ≡ first (pair_checks pages pairs.now) }
{
    for pair in pairs {
        check_pair(pages, *pair)?;
    }
    Ok(())
}

// What a pair needs: one of the domains that its field and the context share.
fn need_of(machine: &Machine, pair: u32) -> u16
    ensures { result ≡ need_of machine.now.fields machine.now.registers.context pair }
{
    let at = 2 * usize::from(page_in(pair)) + usize::from(right_of(pair));
    machine.fields.get(at).copied().unwrap_or(0) & machine.registers.context
}

// Stores what each pair needs in a lent slice, from its first place on. By index: a proof knows no element of a slice that was lent to `iter_mut`.
fn store_needs(needs: &mut [u16], machine: &Machine, pairs: &[u32])
    requires { length pairs.now ≤ length needs.old }
    ensures { needs.new ≡ map (need_of machine.now.fields machine.now.registers.context) pairs.now ++ drop (length pairs.now) needs.old }
{
    for (i, pair) in pairs.iter().enumerate() {
        needs[i] = need_of(machine, *pair);
    }
}

// A set of domains leaves some need unmet. Every need is looked at, so that the compiler asks many at once (docs/PERFORMANCE.md): `any` would stop at the first, and
// a `fold`, which is proved too, costs five of a hundred instructions more, since it keeps the ends of the slice over each turn of the search.
fn any_unmet(needs: &[u16], set: u16) -> bool
    ensures { result ≡ any (is_unmet set) needs.now }
{
    let mut some = false;
    for need in needs {
        some |= *need & set == 0;
    }
    some
}

// One mask is less than another: it has fewer domains, or as many and is the smaller number (RULES 12.3). The two compared as pairs, `(count, one) < (others, other)`,
// are proved too, and cost each turn of the search two instructions more: 2.4 of a hundred for the dearest list.
fn is_less(one: u16, other: u16) -> bool
    ensures { result ≡ is_less one other }
{
    let count = domain_count(one);
    let others = domain_count(other);
    count < others || (count == others && one < other)
}

// The domain of greatest number in a set; 0 where it is empty.
fn last_domain(set: u16) -> u16
    ensures { result ≡ last_domain set }
{
    15u16.saturating_sub(set.leading_zeros() as u16)
}

// The least of a best mask and of those that meet every need and add to a mask any of the domains that are left. Where the mask itself is not less than the best, none
// that has more is. The domain of greatest number is left out first, where the others will do without it, and then put in.
#[tactic(auto, using(crate::proofs::Steps::best_kept, crate::proofs::Steps::last_one, crate::proofs::Steps::lower_less, crate::proofs::Steps::still_met, crate::proofs::Steps::none_meets_all, crate::proofs::Steps::least_split))]
fn least_from(needs: &[u16], rest: u16, mask: u16, best: u16) -> u16
    requires { any (is_unmet (bit_or mask rest)) needs.now ≡ false }
    ensures { result ≡ least_from needs.now rest mask best }
{
    if !is_less(mask, best) {
        return best;
    }
    if rest == 0 {
        return mask;
    }
    let last = last_domain(rest);
    let lower = without_bit(rest, last);
    let found = if any_unmet(needs, mask | lower) {
        best
    } else {
        least_from(needs, lower, mask, best)
    };
    least_from(needs, lower, with_bit(mask, last), found)
}

// The least mask within a context that meets all needs. The whole context will do if any mask does.
#[tactic(auto, using(crate::proofs::Steps::needed_none, crate::proofs::Steps::needed_found))]
fn needed_mask(needs: &[u16], context: u16) -> Result<u16, Refusal>
    ensures number { outcome_number result ≡ (needed_mask needs.now context).number }
    ensures mask { given_or 0 result ≡ (needed_mask needs.now context).mask }
{
    if any_unmet(needs, context) {
        return Err(Refusal::NoMask);
    }
    Ok(least_from(needs, context, 0, context))
}

// The least mask for pairs of which there are not too many. What they need stands in an array of the most there may be, since the core has no heap.
fn mask_for(machine: &Machine, pairs: &[u32]) -> Result<u16, Refusal>
    requires { length pairs.now ≤ 64 }
    ensures number { outcome_number result ≡ (mask_for machine.now.pages machine.now.fields machine.now.registers.context pairs.now).number }
    ensures mask { given_or 0 result ≡ (mask_for machine.now.pages machine.now.fields machine.now.registers.context pairs.now).mask }
{
    check_pairs(machine.pages, pairs)?;
    let mut needs = [0u16; PAIRS];
    store_needs(&mut needs, machine, pairs);
    needed_mask(&needs[..pairs.len()], machine.registers.context)
}

// The least mask for a list of pairs, each right × 65,536 + page, on a machine (RULES, section 12).
#[tactic(auto, using(crate::proofs::Numbers::unsound_first, crate::proofs::Numbers::too_many, crate::proofs::Numbers::masked_for))]
pub fn least_mask(machine: Machine, pairs: &[u32]) -> Result<u16, Refusal>
    ensures number { outcome_number result ≡ (least_mask_of machine pairs.now).number }
    ensures mask { given_or 0 result ≡ (least_mask_of machine pairs.now).mask }
{
    if !machine.sound() {
        return Err(Refusal::Unsound);
    }
    if PAIRS < pairs.len() {
        return Err(Refusal::TooManyPairs);
    }
    mask_for(&machine, pairs)
}
