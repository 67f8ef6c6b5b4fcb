ghost use Rattle.std.specs.Prelude.{◌≡◌, [], ◌∷◌, ◌++◌, OnOk, OnErr};

use crate::status::Status;
use std::alloc::Global;
use std::marker::Model;
use theory_points::{Name, NoMemory};
use theory_statics::Differentiated;
use theory_verdict::Answer;

/// A model that was created.
#[derive(Drop)]
pub struct Created {
    pub model: Name,
    /// The number of its first version.
    pub version: u32,
}

/// Why a question is refused.
#[derive(Clone, Copy, Debug, PartialEq, Eq)]
pub enum AskFault {
    /// The name at this place, from 1, of those on which the condition is wanted isn't listed.
    UnknownName(usize),
}

/// Why a request is refused.
#[derive(Clone, Copy, Debug, PartialEq, Eq)]
pub enum Refusal {
    /// A fault of the question.
    Ask(AskFault),
}

/// What the program answers to one step.
#[derive(Drop)]
pub enum Reply {
    Created(Created),
    Answered(Answer),
    Refused(Refusal),
    /// The equations of a model, differentiated along each parameter.
    Derived(Vec<Differentiated>),
}

/// The replies of a run, in the order in which they were made.
#[derive(Drop)]
pub struct Replies {
    items: Vec<Reply>,
}

impl Model for Replies {
    ghost use Rattle.std.specs.Prelude.{List};
    ghost use Rattle.theory_cli.specs.declared.reply.Reply.{Reply};
    ghost use Rattle.theory_syntax.specs.contracts.claim.Claim as claim_row;
    ghost use Rattle.theory_syntax.specs.contracts.expr.Expr as expr_row;
    ghost use Rattle.std.specs.Coded.{codes};

    ghost Value = { List Reply };

    ghost coded = { Prim.hlevel (codes, claim_row.the_row.coded, expr_row.the_row.coded) };

    ghost view = { λ r. r.items.items };
}

impl Replies {
    pub fn new(alloc: Global) -> Self
        ensures { result ≡ [] }
    {
        Replies {
            items: Vec::new(alloc),
        }
    }

    pub fn as_slice(&self) -> &[Reply]
        ensures { result.now ≡ self.now }
    {
        self.items.as_slice()
    }

    /// Adds a reply at the end, or drops it for want of memory.
    pub fn push(&mut self, reply: Reply) -> Result<(), NoMemory>
        ensures ok { OnOk result (self.new ≡ self.old ++ reply ∷ []) }
        ensures err { OnErr result (self.new ≡ self.old) }
    {
        self.items.push(reply)?;
        Ok(())
    }
}

/// What a run leaves: how it ended, and the replies that were made, in their order.
#[derive(Drop)]
pub struct Outcome {
    pub status: Status,
    pub replies: Replies,
}
