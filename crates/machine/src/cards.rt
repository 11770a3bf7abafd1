//! Worked cases of single steps, which the definition of the step gives.
ghost use Rattle.std.specs.Prelude.{◌≡◌, length};
ghost use Rattle.std.specs.List.{AllByRecursion};
ghost use Rattle.machine.specs.Cards.{Holds, cards};

/// How many worked cases there are. Each of them is what the definition of the step gives.
pub fn worked_cases() -> u8
    ensures count { result ≡ length cards }
    ensures hold { AllByRecursion Holds cards }
{
    10
}
