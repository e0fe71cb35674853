// The four roles of a bundle: whether a word is plain, inner, data or a literal head.
ghost use Rattle.std.specs.Prelude.{◌≡◌, map};
ghost use Rattle.pairs.specs.Role.{role_alone, role_after, roles_of};
ghost use Rattle.pairs.specs.Numbers.{role_number};

use crate::pair::is_pair;
use decoder::reading::{Kind, Reading};

#[derive(Clone, Copy, Debug, PartialEq, Eq)]
pub enum Role {
    Plain = 0,
    // The second word of a pair.
    Inner = 1,
    // A word after a literal head.
    Data = 2,
    Head = 3,
}

// The number of a role, as an entry of the ledger has it.
impl From<Role> for u32 {
    ghost from_gives = { λ role number. number ≡ role_number role };

    fn from(role: Role) -> u32 {
        role as u32
    }
}

#[tactic(auto, unfolding(crate::specs::Role::role_alone))]
fn role_alone(kind: Kind) -> Role
    ensures { role_number result ≡ role_alone kind }
{
    match kind {
        Kind::Head => Role::Head,
        Kind::Literal { .. } => Role::Data,
        _ => Role::Plain,
    }
}

// The role of a word behind another in its bundle.
#[tactic(auto, unfolding(crate::specs::Role::role_after))]
pub fn role_after(first: Reading, second: Reading) -> Role
    ensures { role_number result ≡ role_after first second }
{
    if is_pair(first, second) {
        Role::Inner
    } else {
        role_alone(second.kind)
    }
}

// Pairs lie in adjacent slots of one bundle, so slot 0 is never inner.
#[tactic(auto, unfolding(crate::specs::Role::roles_of))]
pub fn roles(bundle: [Reading; 4]) -> [Role; 4]
    ensures { map role_number result ≡ roles_of bundle }
{
    let [slot0, slot1, slot2, slot3] = bundle;
    [
        role_alone(slot0.kind),
        role_after(slot0, slot1),
        role_after(slot1, slot2),
        role_after(slot2, slot3),
    ]
}
