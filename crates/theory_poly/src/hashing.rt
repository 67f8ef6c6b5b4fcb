ghost use Rattle.std.specs.Prelude.{◌≡◌};
ghost use Rattle.theory_poly.specs.Hashes.{with_term, hash_of};

use crate::term::Term;
use std::hash::{FoldHasher, Hasher};

/// A number that is the same for the same terms, and mostly another one for others.
pub fn hash_of_terms(terms: &[Term]) -> u64
    ensures { result ≡ hash_of terms.now }
{
    let mut hasher = FoldHasher::default();
    for term in terms {
        feed(&mut hasher, term);
    }
    hasher.finish()
}

/// A term's coefficient, then its powers.
fn feed(hasher: &mut FoldHasher, term: &Term)
    ensures { hasher.new ≡ with_term hasher.old term.now }
{
    hasher.write_i64(term.coefficient);
    hasher.write(&term.powers);
}
