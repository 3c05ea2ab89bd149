// Domains as bits of a field or a context, the domain that prevails in a field, and the one that a field shares with a context (RULES, section 1).
ghost use Rattle.std.specs.Prelude.{◌≡◌};
ghost use Rattle.rules.specs.Domains.{domain_bit, holds, domain_count, with_bit, without_bit, prevailing, giving_domain, is_outside, is_not_lower};

// The number with bit s set alone, 0 where there is no domain s (RULES 1.6). One case a domain, to be read beside figure 2 of Lopriore's
// paper; bit 0 is the last digit. By the contract and `domain_bit_lem` (proofs/Laws.antt) case s is 2 to the power s.
#[tactic(auto, unfolding(crate::specs::Domains::domain_bit))]
pub fn domain_bit(s: u16) -> u16
    ensures { result ≡ domain_bit s }
{
    match s {
        0 => 0b0000_0000_0000_0001,
        1 => 0b0000_0000_0000_0010,
        2 => 0b0000_0000_0000_0100,
        3 => 0b0000_0000_0000_1000,
        4 => 0b0000_0000_0001_0000,
        5 => 0b0000_0000_0010_0000,
        6 => 0b0000_0000_0100_0000,
        7 => 0b0000_0000_1000_0000,
        8 => 0b0000_0001_0000_0000,
        9 => 0b0000_0010_0000_0000,
        10 => 0b0000_0100_0000_0000,
        11 => 0b0000_1000_0000_0000,
        12 => 0b0001_0000_0000_0000,
        13 => 0b0010_0000_0000_0000,
        14 => 0b0100_0000_0000_0000,
        15 => 0b1000_0000_0000_0000,
        _ => 0,
    }
}

// Domain s is in a field or a context: its register, moved right by s places, ends in a 1, as bit s then stands where bit 0 stood. No number with bit s
// alone is made for that, so there is no case for it here (docs/DECISIONS.md). No register holds a number above 15. It is moved in 64 bits, since a move of 16
// costs the run three instructions more (docs/PERFORMANCE.md).
pub fn holds_domain(set: u16, s: u16) -> bool
    ensures { result ≡ holds set s }
{
    if s < 16 {
        return ((set as u64) >> s) & 1 != 0;
    }
    false
}

// How many domains a field or a context holds (RULES 1.6).
pub fn domain_count(set: u16) -> u32
    ensures { result ≡ domain_count set }
{
    set.count_ones()
}

pub fn with_bit(field: u16, s: u16) -> u16
    ensures { result ≡ with_bit field s }
{
    field | domain_bit(s)
}

pub fn without_bit(field: u16, s: u16) -> u16
    ensures { result ≡ without_bit field s }
{
    field & !domain_bit(s)
}

// The domain that prevails in a field, if there is one: the lowest-numbered domain of the whole field (RULES 1.8).
#[tactic(auto, unfolding(crate::specs::Domains::prevailing))]
pub fn prevailing_of(field: u16) -> Option<u16>
    ensures { result ≡ prevailing field }
{
    if field == 0 {
        return None;
    }
    Some(field.trailing_zeros() as u16)
}

// The lowest-numbered domain that a field and a local context both hold, through which the field gives its right (RULES 1.17); 16 where they share none, which no
// call by value reports (`named_lowest`, machine/proofs/Named.antt). A number and no `Option`: `domain_through` (machine/specs/Calls.antt)
// and the law `named_lowest` are about the number, and the one caller asks only where a domain is named.
#[tactic(auto, unfolding(crate::specs::Domains::giving_domain))]
pub fn giving_domain(field: u16, local: u16) -> u16
    ensures { result ≡ giving_domain field local }
{
    (field & local).trailing_zeros() as u16
}

// No domain prevails, or one outside the local context.
pub fn is_outside(prevailing: Option<u16>, local: u16) -> bool
    ensures { result ≡ is_outside prevailing local }
{
    prevailing.is_none_or(|domain| !holds_domain(local, domain))
}

// No domain prevails, or domain s is not of lower level than the one that does.
pub fn is_not_lower(prevailing: Option<u16>, s: u16) -> bool
    ensures { result ≡ is_not_lower prevailing s }
{
    prevailing.is_none_or(|domain| s <= domain)
}
