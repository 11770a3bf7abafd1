//! The fields of a word, and what they stand for.
ghost use Rattle.std.specs.Prelude.{◌≡◌, ◌*◌, ◌<◌, ◌≤◌};
ghost use Rattle.instruction.specs.Fields.{register_of, system_register_of, signed_of, register_number, system_number, system_register_numbered, unsigned_of};

use crate::{NoSuchRegister, Register, SystemRegister};

/// The register of a three-bit field.
pub(crate) fn register(field: u16) -> Register
    requires { field < 8 }
    ensures { result ≡ register_of field }
{
    // A match and not a table: with tables in memory here, decoding every word 300 times took 216 ms,
    // and the match meets the 181 ms that it took before.
    match field {
        0 => Register::R0,
        1 => Register::R1,
        2 => Register::R2,
        3 => Register::R3,
        4 => Register::R4,
        5 => Register::R5,
        6 => Register::R6,
        _ => Register::R7,
    }
}

/// The system register of a three-bit field.
pub(crate) fn system_register(field: u16) -> SystemRegister
    requires { field < 8 }
    ensures { result ≡ system_register_of field }
{
    SystemRegister::try_from(u32::from(field)).unwrap()
}

/// The signed number of a field with `2 * half` values.
pub(crate) fn signed(field: u16, half: u16) -> i8
    requires within { field < 2 * half }
    requires narrow { half ≤ 128 }
    ensures { result ≡ signed_of half field }
{
    // No integer type has five or six bits whose `cast_signed` would say this.
    if field < half {
        field as i8
    } else {
        (field as i16 - (2 * half) as i16) as i8
    }
}

// One line for each kind of register: a trait for both would be longer.
impl Register {
    /// The register's number, 0 to 7.
    pub fn number(self) -> u16
        ensures value { result ≡ register_number self }
        ensures bound { result < 8 }
    {
        self as u16 // R0 to R7 stand in their order.
    }
}

impl TryFrom<u32> for SystemRegister {
    type Error = NoSuchRegister;

    ghost try_from_gives = { λ number register. register ≡ system_register_numbered number };

    fn try_from(number: u32) -> Result<SystemRegister, NoSuchRegister> {
        match number {
            0 => Ok(SystemRegister::SavedStatus),
            1 => Ok(SystemRegister::ReturnAddress),
            2 => Ok(SystemRegister::Event),
            3 => Ok(SystemRegister::Detail),
            4 => Ok(SystemRegister::Scratch),
            5 => Ok(SystemRegister::EntryAddress),
            6 => Ok(SystemRegister::StackPointer),
            7 => Ok(SystemRegister::Status),
            _ => Err(NoSuchRegister),
        }
    }
}

impl SystemRegister {
    /// The system register's number, 0 to 7.
    pub fn number(self) -> u16
        ensures value { result ≡ system_number self }
        ensures bound { result < 8 }
    {
        self as u16 // S0 to S7 stand in their order.
    }
}

/// The eight bits of a signed number.
pub(crate) fn unsigned(n: i8) -> u16
    ensures value { result ≡ unsigned_of n }
    ensures bound { result < 256 }
{
    u16::from(n.cast_unsigned())
}
