//! The calls that a script makes of a machine.
ghost use Rattle.std.specs.Prelude.{◌≡◌};
ghost use Rattle.monitor.specs.Commands.{said};
ghost use Rattle.pairing.specs.Scripts.{call_said};

use calls::Call;
use monitor::commands::Command;

/// The call that a command is, if it is one.
// Not a `TryFrom`: all that there is to say of another command is that it is no call.
pub fn call_of(command: Command<'_>) -> Option<Call>
    ensures { result ≡ call_said (said command.entry) }
{
    match command {
        Command::Step => Some(Call::Step),
        Command::UserRun { steps } => Some(Call::UserRun { steps }),
        Command::Raise { line } => Some(Call::Raise { line }),
        Command::Drive { port, word } => Some(Call::Drive { port, word }),
        Command::Register { number } => Some(Call::Register { number }),
        Command::Output { port } => Some(Call::Output { port }),
        _ => None,
    }
}
