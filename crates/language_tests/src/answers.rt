//! What is read of a line of the shell, told apart.

ghost use Rattle.std.specs.Prelude.{◌≡◌, ◌↔◌, Err, Ok, true};
ghost use Rattle.shell_lang.specs.declared.command.Command.TheVariants.{Blank};
ghost use Rattle.shell_lang.specs.declared.bad_command.BadCommand.TheVariants.{TooLong};

use shell_lang::{BadCommand, Command};

/// Whether a line has no words.
pub(crate) fn is_blank(read: &Result<Command, BadCommand>) -> bool
    ensures { (result ≡ true) ↔ (read.now ≡ Ok Blank) }
{
    matches!(read, Ok(Command::Blank))
}

/// Whether a line is refused for its length.
pub(crate) fn is_too_long(read: &Result<Command, BadCommand>) -> bool
    ensures { (result ≡ true) ↔ (read.now ≡ Err TooLong) }
{
    matches!(read, Err(BadCommand::TooLong))
}
