//! What the calls answer.
#![tactic(auto)]

ghost use Rattle.std.specs.Prelude.{◌≡◌};
ghost use Rattle.answers.specs.Answers.{refusal_number, step_entry, step_halt};

use translation::event::Event;

/// Why a call is refused. A refusal leaves all as found.
#[derive(Clone, Copy, PartialEq, Eq, Debug)]
pub enum Refusal {
    /// The machine is halted.
    Halted = 1,
    /// There is no line above 7.
    NoSuchLine = 2,
    /// There is no port above 255.
    NoSuchPort = 3,
    /// There is no register above 7.
    NoSuchRegister = 4,
    /// More steps are asked for than a run may make.
    TooManySteps = 5,
    /// The machine is in system mode, where no user program runs.
    SystemMode = 6,
}

impl Refusal {
    /// The number by which the refusal is known.
    pub fn number(self) -> u8
        ensures { result ≡ refusal_number self }
    {
        self as u8
    }
}

/// What a step came to.
#[derive(Clone, Copy, PartialEq, Eq, Debug)]
pub enum StepAnswer {
    Ran,
    Halted,
    Entered(Event),
}

impl StepAnswer {
    /// The halt, if the step halted the machine.
    pub fn halt(self) -> Option<Halt>
        ensures { result ≡ step_halt self }
    {
        match self {
            StepAnswer::Halted => Some(Halt),
            StepAnswer::Ran | StepAnswer::Entered(_) => None,
        }
    }

    /// The event with which the step entered the system, if it did.
    pub fn entry(self) -> Option<Event>
        ensures { result ≡ step_entry self }
    {
        match self {
            StepAnswer::Entered(event) => Some(event),
            StepAnswer::Ran | StepAnswer::Halted => None,
        }
    }
}

/// A step has halted the machine. There is nothing more to tell of it.
#[derive(Clone, Copy, PartialEq, Eq, Debug)]
pub struct Halt;

/// How many steps a run made, the one that stopped it with them, and what stopped it: nothing, if
/// all its steps were made. A run stops at a halt, and a user run at an entry into the system, of
/// which the event is told.
#[derive(Clone, Copy, PartialEq, Eq, Debug)]
pub struct RunAnswer<Stop> {
    pub steps: u32,
    pub stop: Option<Stop>,
}
