// M, N and majority, and sets of acceptors: a set is a u8, bit i for acceptor i, and its size is its count of ones.
#![tactic(auto)]

ghost use Rattle.std.specs.Prelude.{◌≡◌};
ghost use Rattle.quorum.specs.Quorum.{majority, has_member, with_member, within, size, reaches, reaches_majority};
ghost use Rattle.quorum.specs.Settings.{allowed};

// M acceptors and N instances, as every call is given them.
#[derive(Clone, Copy)]
pub struct Settings {
    pub acceptors: u32,
    pub instances: u32,
}

// M is 3, 5 or 7, and N is 1 to 1,024.
pub fn settings_allowed(settings: Settings) -> bool
    ensures { result ≡ allowed settings }
{
    let acceptors = settings.acceptors;
    let instances = settings.instances;
    let acceptors_allowed = (acceptors == 3) | (acceptors == 5) | (acceptors == 7);
    let instances_allowed = (1 <= instances) & (instances <= 1024);
    acceptors_allowed & instances_allowed
}

// Half of M rounded down, plus 1.
pub fn majority(acceptors: u32) -> u32
    ensures { result ≡ majority acceptors }
{
    acceptors / 2 + 1
}

// A member is a switch number as a packet carries it: 8 and above have no bit, and are in no set.
pub fn has_member(set: u8, member: u16) -> bool
    ensures { result ≡ has_member set member }
{
    member < 8 && (set >> member) % 2 == 1
}

// A member that is in the set already, or that has no bit, changes nothing.
pub fn with_member(set: u8, member: u16) -> u8
    ensures { result ≡ with_member set member }
{
    if (8 <= member) | has_member(set, member) {
        return set;
    }
    set + (1u8 << member)
}

// How many members the set has.
pub fn size(set: u8) -> u32
    ensures { result ≡ size set }
{
    u8::count_ones(set)
}

// No bit stands at or above M: every member is below M. With 8 acceptors and more that is every u8.
pub fn is_within(acceptors: u32, set: u8) -> bool
    ensures { result ≡ within acceptors set }
{
    8 <= acceptors || set >> acceptors == 0
}

// The set has at least so many members.
pub fn reaches(threshold: u32, set: u8) -> bool
    ensures { result ≡ reaches threshold set }
{
    threshold <= size(set)
}

// The set has at least majority bits set.
pub fn reaches_majority(acceptors: u32, set: u8) -> bool
    ensures { result ≡ reaches_majority acceptors set }
{
    reaches(majority(acceptors), set)
}
