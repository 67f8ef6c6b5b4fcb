ghost use Rattle.std.specs.Prelude.{◌≡◌};
ghost use Rattle.theory_meaning.specs.declared.words.Kind.TheVariants as kind;

use crate::policy::Policy;
use theory_meaning::Kind;

/// A policy of each kind.
#[derive(Drop)]
pub struct Policies {
    pub listed: Policy,
    pub rare: Policy,
    pub unit: Policy,
    pub signed: Policy,
    ghost is_listed: { listed.kind ≡ kind.Listed },
    ghost is_rare: { rare.kind ≡ kind.Rare },
    ghost is_unit: { unit.kind ≡ kind.Unit },
    ghost is_signed: { signed.kind ≡ kind.Signed },
}

impl Policies {
    /// The policies of the four kinds.
    pub fn new(listed: Policy, rare: Policy, unit: Policy, signed: Policy) -> Policies
        requires listed { listed.kind ≡ kind.Listed }
        requires rare { rare.kind ≡ kind.Rare }
        requires unit { unit.kind ≡ kind.Unit }
        requires signed { signed.kind ≡ kind.Signed }
    {
        Policies {
            listed,
            rare,
            unit,
            signed,
        }
    }

    /// The policy of the kind.
    pub fn policy(&self, kind: Kind) -> &Policy
        ensures { result.now.kind ≡ kind }
    {
        match kind {
            Kind::Listed => &self.listed,
            Kind::Rare => &self.rare,
            Kind::Unit => &self.unit,
            Kind::Signed => &self.signed,
        }
    }
}
