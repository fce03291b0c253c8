//! What the program says of itself.

ghost use Rattle.std.specs.Prelude.{◌≡◌, IfErr, IfOk, List};
ghost use Rattle.abt_machine.specs.Words.{Text};
ghost use Rattle.abt_words.specs.Commands.{Says};
ghost use Rattle.abt_words.specs.declared.commands.Command.TheVariants as command;
ghost use Rattle.abt_run.specs.Given.{Given};
ghost use Rattle.abt_run.specs.declared.keeping.Keep.{Keep};
ghost use Rattle.abt_run.specs.Printed.{Prints};
ghost use Rattle.abt_shell.specs.declared.status.Stop.TheVariants as why;

use crate::prepared::{Prepared, without_run};
use crate::status::Conclusion;
use crate::usage::HELP;
use abt_shell::Stop;
use abt_words::{Program, version};
use std::alloc::Global;

/// The program's words.
pub(crate) fn prepare_help(alloc: Global) -> Result<Prepared, Stop>
    ensures done { (g : Given) (keep : Keep) → Says g.words command.Help → IfOk result (λ p. Prints g keep p.conclusion p.journal p.text.items) }
    ensures stop { IfErr result (λ stop. stop ≡ why.OutOfMemory) }
{
    let text = Vec::from_slice(alloc, HELP)?;
    Ok(without_run(text, Conclusion::Helps))
}

/// The program's version.
pub(crate) fn prepare_version(alloc: Global) -> Result<Prepared, Stop>
    ensures done { (g : Given) (keep : Keep) → Says g.words command.Version → IfOk result (λ p. Prints g keep p.conclusion p.journal p.text.items) }
    ensures stop { IfErr result (λ stop. stop ≡ why.OutOfMemory) }
{
    let text = Vec::from_slice(alloc, version(Program::Run))?;
    Ok(without_run(text, Conclusion::NamesVersion))
}
