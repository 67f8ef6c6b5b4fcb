ghost use Rattle.std.specs.Prelude.{◌≤◌, length, IfOk};
ghost use Rattle.theory_grammar.specs.Runs.{IsRun, first_passes};
ghost use Rattle.theory_grammar.specs.Scan.{is_blank};
ghost use Rattle.theory_tokens.specs.Scanned.{IsScan, HasFitTokens, IsBehindBlanks};

use crate::next::{Next, next_token};
use crate::run::{Kind, split_run};
use crate::token::Token;
use std::alloc::Global;
use theory_grammar::Unreadable;
use theory_points::NoMemory;

/// How a line ends, each with a column from 1.
#[derive(Clone, Copy, Debug, PartialEq, Eq)]
pub enum End {
    /// At a comment sign, or one past the last byte.
    Complete(u32),
    /// At bytes that can't be read.
    Broken(Unreadable, u32),
}

/// The tokens of a line and how it ends.
#[derive(Drop)]
pub struct Scanned<'a> {
    pub tokens: Vec<Token<'a>>,
    /// The column of the first byte of each token, from 1.
    pub columns: Vec<u32>,
    pub end: End,
}

/// Reads the bytes of a line, no more than a text has, as tokens up to its end or to a fault.
pub fn scan_line<'a>(alloc: Global, line: &'a [u8]) -> Result<Scanned<'a>, NoMemory>
    requires { length line.now ≤ 65536 }
    ensures reads { IfOk result (IsScan line.now) }

    // Names are identifiers, and numbers are within the bound of literals.
    ensures fit { IfOk result HasFitTokens }
{
    let mut tokens = Vec::new(alloc);
    let mut columns = Vec::new(alloc);
    let mut rest = behind_blanks(line);
    loop {
        let column = (line.len() - rest.len() + 1) as u32;
        match next_token(rest) {
            Next::Found(token, behind) => {
                tokens.push(token)?;
                columns.push(column)?;
                rest = behind_blanks(behind);
            }
            Next::Over => {
                return Ok(Scanned {
                    tokens,
                    columns,
                    end: End::Complete(column),
                });
            }
            Next::Bad(why) => {
                return Ok(Scanned {
                    tokens,
                    columns,
                    end: End::Broken(why, column),
                });
            }
        }
    }
}

// The bytes behind the blanks at the front.
fn behind_blanks(bytes: &[u8]) -> &[u8]
    ensures { IsBehindBlanks result.now bytes.now }
{
    let (_, rest) = split_run(Kind::Blank, bytes);
    rest
}
