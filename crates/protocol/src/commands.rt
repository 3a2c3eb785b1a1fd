//! The commands of the protocol.
ghost use Rattle.std.specs.Prelude.{◌≡◌, option_map};
ghost use Rattle.protocol.specs.Tables.{command_at, command_row};

macro_rules! rows {
    ($($byte:literal $name:literal;)*) => {
        &[$(Command { byte: $byte, name: $name }),*]
    };
}

/// A command of the protocol.
#[derive(Clone, Copy)]
pub struct Command {
    /// The byte of a request that asks for it.
    pub byte: u8,
    /// Its name, in small letters.
    pub name: &'static str,
}

/// The commands, in the order of their bytes from 1 on.
pub const COMMANDS: &[Command] = rows![
    1 "put";
    2 "get";
    3 "remove";
    4 "list";
    5 "query";
    6 "drop";
    7 "usage";
    8 "put_new";
];

/// The command that a byte asks for, if there is one.
pub fn command_at(byte: usize) -> Option<Command>
    ensures { option_map command_row result ≡ command_at byte }
{
    COMMANDS.get(byte.checked_sub(1)?).copied()
}
