// The words of the command line.
ghost use Rattle.std.specs.Prelude.{◌≡◌, map, IfErr, IfOk, None, Some, string_bytes};
ghost use Rattle.command_words.specs.Meaning.{meaning, told};

use crate::builders::whole_command;
use crate::commands::{Command, WordsFault};
use crate::options::found_command;
use clap::error::ErrorKind;
use std::alloc::Global;

/// The command that the words mean, without the program's name. Words that ask for help mean none.
pub fn read_words(alloc: Global, words: &[String]) -> Result<Command, WordsFault>
    ensures ok { IfOk result (λ c. meaning (map string_bytes words.now) ≡ Some (told c)) }
    ensures usage { IfErr result
        (λ e. e ≡ WordsFault.Usage → meaning (map string_bytes words.now) ≡ None) }
{
    let program = match whole_command(alloc) {
        Ok(program) => program,
        Err(_) => return Err(WordsFault::Memory),
    };
    let matches = match program.try_get_matches_from(words) {
        Ok(matches) => matches,
        Err(error) => match error.kind() {
            ErrorKind::OutOfMemory => return Err(WordsFault::Memory),
            _ => return Err(WordsFault::Usage),
        },
    };
    match found_command(alloc, &matches) {
        Ok(Some(command)) => Ok(command),
        Ok(None) => Err(WordsFault::Usage),
        Err(_) => Err(WordsFault::Memory),
    }
}
