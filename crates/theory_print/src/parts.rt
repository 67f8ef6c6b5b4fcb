ghost use Rattle.std.specs.Prelude.{◌≡◌, ◌++◌, OnOk, codes, decimal};
ghost use Rattle.std.specs.Fmt.{signed_decimal};
ghost use Rattle.theory_grammar.specs.Printed.{unless};
ghost use Rattle.theory_meaning.specs.Printed.{fraction_text};
ghost use Rattle.theory_grammar.specs.Signs.{relation_bytes};

use std::alloc::Global;
use theory_points::{Bytes, Frac, NoMemory};
use theory_syntax::Rel;

/// Appends the sign, unless the test holds.
pub fn add_unless(text: &mut Bytes, bare: bool, sign: &[u8]) -> Result<(), NoMemory>
    ensures { OnOk result (text.new ≡ text.old ++ unless bare sign.now) }
{
    if bare { Ok(()) } else { text.extend(sign) }
}

/// Appends a fraction.
pub fn add_fraction(alloc: Global, text: &mut Bytes, value: &Frac) -> Result<(), NoMemory>
    ensures { OnOk result (text.new ≡ text.old ++ fraction_text value.now) }
{
    add_signed(alloc, text, value.num())?;
    let den = value.den() as u64;
    if den > 1 {
        text.extend(b"/")?;
        add_number(alloc, text, den)?;
    }
    Ok(())
}

// Appends a whole number with its sign.
fn add_signed(alloc: Global, text: &mut Bytes, number: i64) -> Result<(), NoMemory>
    ensures { OnOk result (text.new ≡ text.old ++ signed_decimal number) }
{
    let digits = number.to_string(alloc)?;
    text.extend(digits.as_bytes())
}

/// Appends a whole number.
pub fn add_number(alloc: Global, text: &mut Bytes, number: u64) -> Result<(), NoMemory>
    ensures { OnOk result (text.new ≡ text.old ++ decimal number) }
{
    let digits = number.to_string(alloc)?;
    text.extend(digits.as_bytes())
}

/// Appends a relation with a blank on each side.
pub fn add_relation(text: &mut Bytes, rel: Rel) -> Result<(), NoMemory>
    ensures { OnOk result (text.new ≡ text.old ++ codes " " ++ relation_bytes rel ++ codes " ") }
{
    text.extend(b" ")?;
    text.extend(rel_sign(rel))?;
    text.extend(b" ")
}

// The sign of a relation.
fn rel_sign(rel: Rel) -> &'static [u8]
    ensures { result.now ≡ relation_bytes rel }
{
    match rel {
        Rel::Eq => b"=",
        Rel::Ne => b"!=",
        Rel::Lt => b"<",
        Rel::Le => b"<=",
        Rel::Gt => b">",
        Rel::Ge => b">=",
    }
}
