ghost use Rattle.std.specs.Prelude.{◌≡◌};
ghost use Rattle.theory_cli.specs.Ending.{exit_number};
ghost use Rattle.theory_cli.specs.Running as running;
ghost use Rattle.theory_cli.specs.Plain.{reply_of, replies_of};
ghost use Rattle.theory_session.specs.Run as session;

use crate::reply::{Replies, Reply};
use theory_meaning::Verdict;

/// How a run ended.
#[derive(Clone, Copy, Debug, PartialEq, Eq)]
pub enum Status {
    /// Every reply was made and written, and none is open.
    Finished,
    /// Every reply was made and written, and some is open: a refusal, or its claim is undecided.
    Unsettled,
    /// The words are no command.
    NoCommand,
    /// The text of the file or its model is refused.
    Refused,
    /// The file can't be read.
    Unread,
    /// A write to out or err failed.
    Unwritten,
    /// Want of memory.
    NoMemory,
}

impl Status {
    /// The exit status of the program.
    pub fn number(self) -> u8
        ensures { result ≡ exit_number self }
    {
        match self {
            Status::Finished => 0,
            Status::Unsettled => 1,
            Status::NoCommand => 2,
            Status::Refused => 3,
            Status::Unread => 5,
            Status::Unwritten => 6,
            Status::NoMemory => 9,
        }
    }
}

/// How a run ends that made and wrote all these replies.
pub fn ended_with(replies: &Replies) -> Status
    ensures { result ≡ running.ended_with (replies_of replies.now) }
{
    if some_open(replies.as_slice()) {
        Status::Unsettled
    } else {
        Status::Finished
    }
}

fn some_open(replies: &[Reply]) -> bool
    ensures { result ≡ session.some_open (replies_of replies.now) }
{
    for reply in replies {
        if is_open(reply) {
            return true;
        }
    }
    false
}

fn is_open(reply: &Reply) -> bool
    ensures { result ≡ session.is_open (reply_of reply.now) }
{
    match reply {
        Reply::Created(_) | Reply::Derived(_) => false,
        Reply::Answered(answer) => is_left(answer.verdict),
        Reply::Refused(_) => true,
    }
}

fn is_left(verdict: Verdict) -> bool
    ensures { result ≡ session.is_left verdict }
{
    match verdict {
        Verdict::Undecided => true,
        Verdict::Holds | Verdict::Fails | Verdict::Contradictory | Verdict::Mixed => false,
    }
}
