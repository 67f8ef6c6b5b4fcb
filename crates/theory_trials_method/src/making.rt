//! Formulas of x, y and z that are made from a number by a fixed rule, and their truth.

use std::alloc::Global;
use theory_formula::Signs;
use theory_points::{Limit, NoMemory};
use theory_poly::Poly;
use theory_signs::{Formula, Formulas, make_atom};

/// A list that is being read.
#[derive(Drop)]
struct Frame {
    all: bool,
    members: Formulas,
}

/// The lists that are open, the outermost first.
#[derive(Drop)]
pub struct Builder {
    frames: Vec<Frame>,
}

impl Builder {
    pub fn new(alloc: Global) -> Builder {
        Builder {
            frames: Vec::new(alloc),
        }
    }

    pub fn open(&mut self, alloc: Global, all: bool) -> Result<(), Limit> {
        let members = Vec::new(alloc);
        keep(&mut self.frames, Frame { all, members })?;
        Ok(())
    }

    /// Adds to the innermost list, or gives the formula back where none is open.
    pub fn add(&mut self, formula: Formula) -> Result<Option<Formula>, Limit> {
        match self.frames.pop() {
            Some(mut frame) => {
                keep(&mut frame.members, formula)?;
                keep(&mut self.frames, frame)?;
                Ok(None)
            }
            None => Ok(Some(formula)),
        }
    }

    /// The innermost list is a member of the next one, or the whole.
    pub fn close(&mut self) -> Result<Option<Formula>, Limit> {
        match self.frames.pop() {
            Some(frame) => self.add(list(frame)),
            None => Ok(None),
        }
    }
}

pub fn keep<T: Drop>(items: &mut Vec<T>, item: T) -> Result<(), NoMemory> {
    items.push(item)?;
    Ok(())
}

fn list(frame: Frame) -> Formula {
    let Frame { all, members } = frame;
    if all {
        Formula::And(members)
    } else {
        Formula::Or(members)
    }
}

/// The polynomial x, y or z, and x - y for d.
pub fn poly(alloc: Global, letter: char) -> Result<Poly, Limit> {
    let x = Poly::symbol(alloc, 0)?;
    let y = Poly::symbol(alloc, 1)?;
    match letter {
        'd' => x.sub(alloc, &y),
        'y' => Ok(y),
        'z' => Ok(Poly::symbol(alloc, 2)?),
        _ => Ok(x),
    }
}

fn signs(minus: bool, zero: bool, plus: bool) -> Signs {
    match (minus, zero, plus) {
        (true, false, false) => Signs::Neg,
        (true, true, _) => Signs::NotPos,
        (true, false, true) => Signs::NonZero,
        (false, true, true) => Signs::NotNeg,
        (false, true, false) => Signs::Zero,
        (false, false, _) => Signs::Pos,
    }
}

fn decision(truth: bool) -> Formula {
    if truth { Formula::True } else { Formula::False }
}

fn atom(alloc: Global, letter: char, set: [bool; 3]) -> Result<Formula, Limit> {
    let poly = poly(alloc, letter)?;
    Ok(make_atom(alloc, &poly, signs(set[0], set[1], set[2]))?)
}

/// The value of a polynomial in x, y and z.
fn value(poly: &Poly, point: &[i64; 3]) -> i64 {
    let mut sum = 0i64;
    for t in poly.terms() {
        let mut product = t.coefficient;
        for (symbol, at) in point.iter().enumerate() {
            for _ in 0..t.powers[symbol] {
                product = product.wrapping_mul(*at);
            }
        }
        sum = sum.wrapping_add(product);
    }
    sum
}

fn has(signs: Signs, number: i64) -> bool {
    match signs {
        Signs::Neg => number < 0,
        Signs::Zero => number == 0,
        Signs::Pos => number > 0,
        Signs::NotPos => number <= 0,
        Signs::NonZero => number != 0,
        Signs::NotNeg => number >= 0,
    }
}

#[cycle(truth)]
pub fn truth(formula: &Formula, point: &[i64; 3]) -> bool {
    match formula {
        Formula::True => true,
        Formula::False => false,
        Formula::Atom(atom) => has(atom.signs(), value(atom.poly(), point)),
        Formula::And(members) => !some_is(false, members, point),
        Formula::Or(members) => some_is(true, members, point),
    }
}

#[cycle(truth)]
fn some_is(wanted: bool, members: &[Formula], point: &[i64; 3]) -> bool {
    for member in members {
        if truth(member, point) == wanted {
            return true;
        }
    }
    false
}

/// A formula made from a number by a fixed rule, with lists up to six deep.
pub fn made(alloc: Global, seed: u32) -> Result<Formula, Limit> {
    let mut builder = Builder::new(alloc);
    let mut state = seed;
    builder.open(alloc, seed % 2 == 0)?;
    for _ in 0..26 {
        state = state.wrapping_mul(1_664_525).wrapping_add(1_013_904_223);
        add_by(alloc, &mut builder, (state >> 16) as usize)?;
    }
    for _ in 0..8 {
        if let Some(whole) = builder.close()? {
            return Ok(whole);
        }
    }
    Ok(Formula::True)
}

/// Opens a list, closes one, or adds a decided formula or an atom.
fn add_by(alloc: Global, builder: &mut Builder, number: usize) -> Result<(), Limit> {
    let depth = builder.frames.len();
    match number % 8 {
        0 | 1 if depth < 6 => builder.open(alloc, number / 8 % 2 == 0)?,
        2 if depth > 1 => {
            builder.close()?;
        }
        3 if number / 8 % 4 == 0 => {
            builder.add(decision(number / 32 % 2 == 0))?;
        }
        _ => {
            let letter = ['x', 'y', 'z', 'd'][number / 8 % 4];
            let set = number / 32 % 6 + 1;
            let bits = [set % 2 == 1, set / 2 % 2 == 1, set / 4 == 1];
            builder.add(atom(alloc, letter, bits)?)?;
        }
    }
    Ok(())
}
