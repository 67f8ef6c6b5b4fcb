ghost use Rattle.std.specs.Prelude.{◌≡◌, true, false, not, ◌&&◌, ◌||◌, MatchOption};
ghost use Rattle.theory_meaning.specs.Fraction.{opposite_sign};
ghost use Rattle.theory_formula.specs.Signs.{has, is_zero, set_of, mirror, complement, without_zero, meet, join};

use theory_meaning::Sign;

/// A set of signs, neither empty nor full, as the right side of a sign condition.
#[derive(Clone, Copy, Debug, PartialEq, Eq)]
pub enum Signs {
    Neg,
    Zero,
    Pos,
    NotPos,
    NonZero,
    NotNeg,
}

impl Signs {
    /// Whether the set has the sign.
    pub fn has(self, sign: Sign) -> bool
        ensures { result ≡ has self sign }
    {
        match self {
            Signs::Neg => sign == Sign::Minus,
            Signs::Zero => sign == Sign::Zero,
            Signs::Pos => sign == Sign::Plus,
            Signs::NotPos => sign != Sign::Plus,
            Signs::NonZero => sign != Sign::Zero,
            Signs::NotNeg => sign != Sign::Minus,
        }
    }

    /// The signs of the opposites.
    pub fn mirror(self) -> Signs
        ensures value { result ≡ mirror self }
        ensures signs { (s : Sign) → has result s ≡ has self (opposite_sign s) }
    {
        match self {
            Signs::Neg => Signs::Pos,
            Signs::Pos => Signs::Neg,
            Signs::NotPos => Signs::NotNeg,
            Signs::NotNeg => Signs::NotPos,
            Signs::Zero | Signs::NonZero => self,
        }
    }

    /// The other signs.
    pub fn complement(self) -> Signs
        ensures value { result ≡ complement self }
        ensures signs { (s : Sign) → has result s ≡ not (has self s) }
    {
        match self {
            Signs::Neg => Signs::NotNeg,
            Signs::Zero => Signs::NonZero,
            Signs::Pos => Signs::NotPos,
            Signs::NotPos => Signs::Pos,
            Signs::NonZero => Signs::Zero,
            Signs::NotNeg => Signs::Neg,
        }
    }

    /// The set less zero; None where no sign is left.
    pub fn without_zero(self) -> Option<Signs>
        ensures value { result ≡ without_zero self }
        ensures signs { MatchOption result ((s : Sign) → has self s && not (is_zero s) ≡ false)
            (λ R. (s : Sign) → has R s ≡ has self s && not (is_zero s)) }
    {
        with_members(self.has(Sign::Minus), false, self.has(Sign::Plus))
    }

    /// The signs of both; None where there is none.
    pub fn meet(self, other: Signs) -> Option<Signs>
        ensures value { result ≡ meet self other }
        ensures signs { MatchOption result ((s : Sign) → has self s && has other s ≡ false)
            (λ R. (s : Sign) → has R s ≡ has self s && has other s) }
    {
        with_members(
            self.has(Sign::Minus) && other.has(Sign::Minus),
            self.has(Sign::Zero) && other.has(Sign::Zero),
            self.has(Sign::Plus) && other.has(Sign::Plus),
        )
    }

    /// The signs of either; None where each sign is there.
    pub fn join(self, other: Signs) -> Option<Signs>
        ensures value { result ≡ join self other }
        ensures signs { MatchOption result ((s : Sign) → has self s || has other s ≡ true)
            (λ R. (s : Sign) → has R s ≡ has self s || has other s) }
    {
        with_members(
            self.has(Sign::Minus) || other.has(Sign::Minus),
            self.has(Sign::Zero) || other.has(Sign::Zero),
            self.has(Sign::Plus) || other.has(Sign::Plus),
        )
    }
}

/// The set with these members; None where that is empty or full.
fn with_members(minus: bool, zero: bool, plus: bool) -> Option<Signs>
    ensures { result ≡ set_of minus zero plus }
{
    match (minus, zero, plus) {
        (true, false, false) => Some(Signs::Neg),
        (false, true, false) => Some(Signs::Zero),
        (false, false, true) => Some(Signs::Pos),
        (true, true, false) => Some(Signs::NotPos),
        (true, false, true) => Some(Signs::NonZero),
        (false, true, true) => Some(Signs::NotNeg),
        (true, true, true) | (false, false, false) => None,
    }
}
