ghost use Rattle.std.specs.Prelude.{◌≡◌, ◌&&◌, ◌||◌, not, false, Some, None, option_map, is_some, if◌then◌else◌};
ghost use Rattle.std.specs.List.{list_any};
ghost use Rattle.theory_meaning.specs.Declarations.{or_else};
ghost use Rattle.theory_meaning.specs.ModelFault as plain;
ghost use Rattle.theory_meaning.specs.ModelFault.{is_undeclared, has_bad_argument, is_parameter};
ghost use Rattle.theory_syntax.specs.Plain.{line_of, lines_of};
ghost use Rattle.theory_model.specs.Keyed.{declared_of};
ghost use Rattle.theory_model.specs.Checked.{counts_in, faults_of, first_lines_of, found_first, shifted_faults_of};

use crate::keys::{Declared, Keys};
use crate::listing::listed_count;
use crate::uses::{Findings, claim_findings, expr_findings, is_among};
use theory_points::Name;
use theory_syntax::{Line, Numbered};

/// The greatest number of listed symbols of a claim.
const MOST_SYMBOLS: usize = 32;

/// For each kind, the number of the first line with a fault of it.
#[derive(Clone, Copy)]
pub(crate) struct FirstLines {
    pub(crate) unknown_name: Option<u32>,
    pub(crate) bad_argument: Option<u32>,
    pub(crate) no_shift: Option<u32>,
    pub(crate) not_param: Option<u32>,
    pub(crate) too_many_symbols: Option<u32>,
}

/// For each kind, whether a line has a fault of it.
#[derive(Clone, Copy)]
pub(crate) struct LineFaults {
    pub(crate) unknown_name: bool,
    pub(crate) bad_argument: bool,
    pub(crate) no_shift: bool,
    pub(crate) not_param: bool,
    pub(crate) too_many_symbols: bool,
}

/// How many symbols a claim lists without a shift and with one.
#[derive(Clone, Copy)]
pub(crate) struct Counts {
    pub(crate) plain: usize,
    pub(crate) shifted: usize,
}

/// The first lines with faults of these kinds.
pub(crate) fn first_lines(keys: &Keys) -> FirstLines
    ensures { result ≡ first_lines_of (lines_of keys.now.lines.now) }
{
    let counts = Counts {
        plain: listed_count(false, keys.lines()),
        shifted: listed_count(true, keys.lines()),
    };
    let mut firsts = FirstLines {
        unknown_name: None,
        bad_argument: None,
        no_shift: None,
        not_param: None,
        too_many_symbols: None,
    };
    for numbered in keys.lines() {
        let faults = line_faults(keys, counts, &numbered.line);
        firsts = with_line(firsts, faults, numbered.at);
    }
    firsts
}

/// The first lines so far, or this one for each kind of which it is the first.
fn with_line(firsts: FirstLines, faults: LineFaults, at: u32) -> FirstLines
    ensures { result ≡ found_first firsts faults at }
{
    FirstLines {
        unknown_name: earlier(firsts.unknown_name, faults.unknown_name, at),
        bad_argument: earlier(firsts.bad_argument, faults.bad_argument, at),
        no_shift: earlier(firsts.no_shift, faults.no_shift, at),
        not_param: earlier(firsts.not_param, faults.not_param, at),
        too_many_symbols: earlier(firsts.too_many_symbols, faults.too_many_symbols, at),
    }
}

/// The first line so far, or this one where it has the fault.
fn earlier(first: Option<u32>, has: bool, at: u32) -> Option<u32>
    ensures { result ≡ or_else first (if has then Some at else None) }
{
    match first {
        Some(n) => Some(n),
        None => if has { Some(at) } else { None },
    }
}

/// The faults of a line of the text.
fn line_faults(keys: &Keys, counts: Counts, line: &Line) -> LineFaults
    requires { counts ≡ counts_in (lines_of keys.now.lines.now) }
    ensures { result ≡ faults_of (lines_of keys.now.lines.now) (line_of line.now) }
{
    match line {
        Line::Fun(_, arguments) => argument_faults(keys, arguments.as_slice()),
        Line::Eq(_, u, v) => equation_faults(expr_findings(keys, u).join(expr_findings(keys, v))),
        Line::Assume(_, claim) => formula_faults(claim_findings(keys, claim), false),
        Line::Claim(_, None, claim) => {
            formula_faults(claim_findings(keys, claim), counts.plain > MOST_SYMBOLS)
        }
        Line::Claim(_, Some(shift), claim) => {
            shifted_faults(keys, counts, shift, claim_findings(keys, claim))
        }
        _ => formula_faults(Findings::none(), false),
    }
}

/// Of an assumption, and of a claim without a shift.
fn formula_faults(found: Findings, too_many_symbols: bool) -> LineFaults
    ensures { result ≡ record {
      unknown_name = found.unknown;
      bad_argument = found.unfit;
      no_shift = found.derivative;
      not_param = false;
      too_many_symbols = too_many_symbols;
    } }
{
    LineFaults {
        unknown_name: found.unknown,
        bad_argument: found.unfit,
        no_shift: found.derivative,
        not_param: false,
        too_many_symbols,
    }
}

fn equation_faults(found: Findings) -> LineFaults
    ensures { result ≡ record {
      unknown_name = found.unknown;
      bad_argument = found.unfit || found.slope;
      no_shift = found.derivative;
      not_param = false;
      too_many_symbols = false;
    } }
{
    LineFaults {
        unknown_name: found.unknown,
        bad_argument: found.unfit | found.slope,
        no_shift: found.derivative,
        not_param: false,
        too_many_symbols: false,
    }
}

fn shifted_faults(keys: &Keys, counts: Counts, shift: &Name, found: Findings) -> LineFaults
    requires { counts ≡ counts_in (lines_of keys.now.lines.now) }
    ensures { result ≡ shifted_faults_of (lines_of keys.now.lines.now) shift.now found }
{
    let declared = keys.declared(shift.as_slice());
    LineFaults {
        unknown_name: declared.is_none() | found.unknown,
        bad_argument: found.unfit,
        no_shift: false,
        not_param: is_other_kind(declared),
        too_many_symbols: counts.shifted > MOST_SYMBOLS,
    }
}

/// Whether it is declared, but not as a parameter.
fn is_other_kind(declared: Option<Declared<'_>>) -> bool
    ensures { result ≡ (is_some (option_map declared_of declared.entry) &&
        not (is_parameter (option_map declared_of declared.entry))) }
{
    match declared {
        Some(Declared::Variable) => true,
        Some(Declared::Parameter) => false,
        Some(Declared::Function(_)) => true,
        None => false,
    }
}

fn argument_faults(keys: &Keys, arguments: &[Name]) -> LineFaults
    ensures { result ≡ record {
      unknown_name = list_any (is_undeclared (lines_of keys.now.lines.now)) arguments.now;
      bad_argument = has_bad_argument (lines_of keys.now.lines.now) arguments.now;
      no_shift = false;
      not_param = false;
      too_many_symbols = false;
    } }
{
    let mut unknown_name = false;
    let mut bad_argument = false;
    for (k, argument) in arguments.iter().enumerate() {
        let declared = keys.declared(argument.as_slice());
        unknown_name |= declared.is_none();
        bad_argument |= is_function(declared) | is_among(argument.as_slice(), &arguments[k + 1..]);
    }
    LineFaults {
        unknown_name,
        bad_argument,
        no_shift: false,
        not_param: false,
        too_many_symbols: false,
    }
}

fn is_function(declared: Option<Declared<'_>>) -> bool
    ensures { result ≡ plain.is_function (option_map declared_of declared.entry) }
{
    match declared {
        Some(Declared::Function(_)) => true,
        _ => false,
    }
}
