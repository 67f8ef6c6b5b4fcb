ghost use Rattle.std.specs.Prelude.{◌≡◌, [], is_some, true};
ghost use Rattle.theory_decision.specs.Engine.{engine};
ghost use Rattle.theory_derivative.specs.Sentence.{claim_in};
ghost use Rattle.theory_session.specs.Check as session;
ghost use Rattle.theory_session.specs.Check.{creation, question_about};
ghost use Rattle.theory_session.specs.Create.{name_in};
ghost use Rattle.theory_session.specs.Derive.{AreDerived, AreFirstDerived, derivation};
ghost use Rattle.theory_syntax.specs.Plain.{lines_of};
ghost use Rattle.theory_words.specs.Reading.{command_of};
ghost use Rattle.theory_cli.specs.Plain.{reply_of, replies_of};
ghost use Rattle.theory_cli.specs.Telling.{Tells, TellsOne, TellsAll, Answers};

use crate::answer::{FIRST_VERSION, model_name, reply};
use crate::names::chosen_names;
use crate::printing::print;
use crate::reply::{Created, Replies, Reply};
use std::alloc::Global;
use theory_edge::Sink;
use theory_model::{Model, text_of};
use theory_points::{Name, Names, NoMemory};
use theory_search::{Policies, Policy};
use theory_statics::differentiated;
use theory_syntax::Line;
use theory_words::Command;

/// Why the replies of a command end early.
#[derive(Clone, Copy, Debug, PartialEq, Eq)]
pub enum Halt {
    /// A write to out failed, after the reply was made.
    Unwritten,
    /// Want of memory, before the next reply was made.
    NoMemory,
}

impl From<NoMemory> for Halt {
    ghost use Rattle.std.specs.Prelude.{◌≡◌};
    ghost use Rattle.theory_cli.specs.declared.session.Halt.TheVariants as halt;

    ghost from_gives = { λ _ e. e ≡ halt.NoMemory };

    fn from(_: NoMemory) -> Self {
        Halt::NoMemory
    }
}

/// Makes, keeps and writes the replies of a command to a model.
pub fn reply_to<O: Sink>(
    alloc: Global,
    command: Command<'_>,
    model: &Model,
    policies: &Policies,
    out: &mut O,
    replies: &mut Replies,
) -> Result<(), Halt>
    requires { replies.old ≡ [] }
    ensures { Answers engine (command_of command.entry) (lines_of model.now) (replies_of replies.new)
        (O.told out.old) (O.told out.new) result }
{
    match command {
        Command::Check { order, on, .. } => {
            let names = chosen_names(alloc, on)?;
            reply_to_check(alloc, model, &names, policies.policy(order), out, replies)
        }
        Command::Derive { .. } => reply_to_derive(alloc, model, out, replies),
    }
}

// The creation first, and then the reply about each claim.
fn reply_to_check<O: Sink>(
    alloc: Global,
    model: &Model,
    on: &Names,
    policy: &Policy,
    out: &mut O,
    replies: &mut Replies,
) -> Result<(), Halt>
    requires { replies.old ≡ [] }
    ensures { TellsAll (session.AreReplies engine (lines_of model.now) on.now policy.now.kind)
        (session.AreFirstReplies engine (lines_of model.now) on.now policy.now.kind)
        (replies_of replies.new) (O.told out.old) (O.told out.new) result }
{
    if let Err(halt) = tell_creation(alloc, model, out, replies) {
        return Err(halt);
    }
    for numbered in text_of(model) {
        match &numbered.line {
            Line::Claim(label, _, _) => {
                if let Err(halt) = tell_reply(alloc, model, label, on, policy, out, replies) {
                    return Err(halt);
                }
            }
            _ => {}
        }
    }
    Ok(())
}

// One reply, with the differentiated equations.
fn reply_to_derive<O: Sink>(
    alloc: Global,
    model: &Model,
    out: &mut O,
    replies: &mut Replies,
) -> Result<(), Halt>
    requires { replies.old ≡ [] }
    ensures { TellsAll (AreDerived (lines_of model.now)) (AreFirstDerived (lines_of model.now))
        (replies_of replies.new) (O.told out.old) (O.told out.new) result }
{
    tell_derivation(alloc, model, out, replies)
}

fn tell_derivation<O: Sink>(
    alloc: Global,
    model: &Model,
    out: &mut O,
    replies: &mut Replies,
) -> Result<(), Halt>
    ensures { TellsOne (λ r. r ≡ derivation (lines_of model.now)) (replies_of replies.old)
        (replies_of replies.new) (O.told out.old) (O.told out.new) result }
{
    let equations = differentiated(alloc, model)?;
    tell(alloc, Reply::Derived(equations), out, replies)
}

fn tell_creation<O: Sink>(
    alloc: Global,
    model: &Model,
    out: &mut O,
    replies: &mut Replies,
) -> Result<(), Halt>
    ensures { TellsOne (λ r. r ≡ creation (lines_of model.now)) (replies_of replies.old)
        (replies_of replies.new) (O.told out.old) (O.told out.new) result }
{
    let created = Created {
        model: model_name(alloc, text_of(model).as_slice())?,
        version: FIRST_VERSION,
    };
    tell(alloc, Reply::Created(created), out, replies)
}

fn tell_reply<O: Sink>(
    alloc: Global,
    model: &Model,
    label: &Name,
    on: &Names,
    policy: &Policy,
    out: &mut O,
    replies: &mut Replies,
) -> Result<(), Halt>
    requires { is_some (claim_in (lines_of model.now) label.now) ≡ true }
    ensures { TellsOne (session.Replies engine (lines_of model.now)
        (question_about (name_in (lines_of model.now)) on.now policy.now.kind label.now))
        (replies_of replies.old) (replies_of replies.new) (O.told out.old) (O.told out.new) result }
{
    let made = reply(alloc, model, label, on, policy)?;
    tell(alloc, made, out, replies)
}

// Makes the print of a reply, keeps the reply, and writes its print once.
fn tell<O: Sink>(
    alloc: Global,
    reply: Reply,
    out: &mut O,
    replies: &mut Replies,
) -> Result<(), Halt>
    ensures { Tells (reply_of reply) (replies_of replies.old) (replies_of replies.new)
        (O.told out.old) (O.told out.new) result }
{
    let text = print(alloc, &reply)?;
    replies.push(reply)?;
    match out.write(text.as_slice()) {
        Ok(()) => Ok(()),
        Err(_) => Err(Halt::Unwritten),
    }
}
