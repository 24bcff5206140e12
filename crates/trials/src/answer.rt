//! The answer to a call, and how it is printed.
ghost use Rattle.std.specs.Fmt.{WritesOnOk};
ghost use Rattle.std.specs.Prelude.{◌≡◌, Some};
ghost use Rattle.trials.specs.declared.answer.Refused.TheVariants.{Opening, Call};
ghost use Rattle.trials.specs.Printing.{row_of, printed_refusal, printed_reply, with_commas, after_commas};

use crate::call::LONGEST_LIST;
use arrayvec::ArrayVec;
use packing::OpeningRefusal;
use run::Refusal;
use std::fmt;

/// Why an opening or another call is refused.
#[derive(Clone, Copy)]
pub(crate) enum Refused {
    Opening(OpeningRefusal),
    Call(Refusal),
}

impl Refused {
    /// The number of its row in the table of refusals.
    fn number(self) -> u8
        ensures { result ≡ (row_of self).number }
    {
        match self {
            Refused::Opening(refusal) => refusal.number(),
            Refused::Call(refusal) => refusal.number(),
        }
    }

    /// The task that it names, if it names one.
    fn task(self) -> Option<usize>
        ensures { result ≡ (row_of self).task }
    {
        match self {
            Refused::Opening(refusal) => refusal.task(),
            Refused::Call(refusal) => refusal.task(),
        }
    }
}

impl From<OpeningRefusal> for Refused {
    ghost from_gives = { λ refusal refused. refused ≡ Opening refusal };

    fn from(refusal: OpeningRefusal) -> Refused {
        Refused::Opening(refusal)
    }
}

impl From<Refusal> for Refused {
    ghost from_gives = { λ refusal refused. refused ≡ Call refusal };

    fn from(refusal: Refusal) -> Refused {
        Refused::Call(refusal)
    }
}

/// What a run answers to a call that is not refused.
#[derive(Drop)]
pub(crate) enum Reply {
    /// an opening or an announcement is granted, or a question is answered
    Told(run::Reply),
    /// a tick is granted: its core list
    Cores(ArrayVec<u8, LONGEST_LIST>),
}

/// Prints numbers, each after a comma.
fn print_rest<W: fmt::Write>(f: &mut fmt::Formatter<W>, list: &[u8]) -> fmt::Result
    ensures { WritesOnOk W.write_str_gives f.old result (after_commas list.now) f.new }
{
    for entry in list {
        write!(f, ",{entry}")?;
    }
    Ok(())
}

/// Prints numbers with a comma between two.
fn print_list<W: fmt::Write>(f: &mut fmt::Formatter<W>, list: &[u8]) -> fmt::Result
    ensures { WritesOnOk W.write_str_gives f.old result (with_commas list.now) f.new }
{
    match list {
        [first, rest @ ..] => {
            write!(f, "{first}")?;
            print_rest(f, rest)
        }
        [] => Ok(()),
    }
}

impl fmt::Display for Refused {
    ghost output = { λ refused. Some (printed_refusal refused) };

    fn fmt<W: fmt::Write>(&self, f: &mut fmt::Formatter<W>) -> fmt::Result {
        let number = self.number();
        match self.task() {
            None => write!(f, "no,{number}"),
            Some(task) => write!(f, "no,{number},{task}"),
        }
    }
}

impl fmt::Display for Reply {
    ghost output = { λ reply. Some (printed_reply reply) };

    fn fmt<W: fmt::Write>(&self, f: &mut fmt::Formatter<W>) -> fmt::Result {
        match self {
            Reply::Told(run::Reply::Done) => write!(f, "ok"),
            Reply::Told(run::Reply::Named(list)) => {
                print_list(f, &list.tasks[..list.cores.min(list.tasks.len())])
            }
            Reply::Told(run::Reply::Number(n)) => write!(f, "{n}"),
            Reply::Told(run::Reply::Truth(b)) => write!(f, "{b}"),
            Reply::Cores(list) => print_list(f, list.as_slice()),
        }
    }
}
