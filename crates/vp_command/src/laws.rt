// Laws of the words of commands.
ghost use Rattle.vp_command.specs.Commands.{CommandsAreSpelled};

/// Words are a command exactly where they spell it: its name, and its numbers in decimal digits, each in its range.
pub fn commands_are_spelled()
    ensures { CommandsAreSpelled }
{}
