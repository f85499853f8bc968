ghost use Rattle.rip_cli.specs.Service.{IsStop};

use rip_serve::Stop;

/// How a run ended. The program's exit status is the number of the variant, from 0.
#[derive(Clone, Copy, Debug, PartialEq, Eq)]
pub enum Status {
    /// The input was read to its end, no session is busy, and what was due is put.
    Read,
    /// The words are of no form; the usage line is put.
    BadWords,
    /// The input is refused; one line that says so is put.
    BadInput,
    /// As many turns were made as may be, and something is left to be done.
    TurnsSpent,
    /// A call of files, sink or door failed; the run ended there.
    Outside,
    /// Want of memory.
    NoMemory,
}

impl Status {
    /// How a run ended in which serving stopped so.
    pub fn of_stop(how: Stop) -> Status
        ensures { IsStop result how }
    {
        match how {
            Stop::Idle => Status::Read,
            Stop::TurnsSpent => Status::TurnsSpent,
            Stop::Outside => Status::Outside,
            Stop::Memory => Status::NoMemory,
        }
    }
}
