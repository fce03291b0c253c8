//! The words after the program's name.

ghost use Rattle.std.specs.Prelude.{◌≡◌, IfOk, map, string_bytes};
ghost use Rattle.abt_words.specs.declared.commands.Command.{Command};
ghost use Rattle.abt_words.specs.Commands.{Says};

use crate::WordFault;
use crate::alone::{help, version};
use crate::check::check;
use crate::commands::Command;
use crate::explore::explore;
use crate::flow::flow;
use crate::run::run;
use crate::self_run::self_run;
use std::alloc::Global;

/// The command that the words after the program's name say: `run FILE [--steps V] [--journal] [--why]` with at most one of
/// `--in-turn` and `--seed N`, `run FILE --schedule JOURNAL [--why]`, `self N`, `check WORKLOAD JOURNAL [--end]`,
/// `check WORKLOAD OUTPUT --report [--why]`, `flow FILE`, `explore FILE [--states M] [--end K [--journal]]`, with the options in any order, `--help` or `--version`.
pub fn words(alloc: Global, list: &[String]) -> Result<Command, WordFault>
    ensures said { IfOk result (λ c. Says (map string_bytes list.now) c) }
    ensures only { IfOk result (λ c. (d : Command) → Says (map string_bytes list.now) d → d ≡ c) }
    ensures bad { result ≡ Err WordFault.Bad → (c : Command) → Says (map string_bytes list.now) c → ⊥ }
{
    let Some((name, rest)) = list.split_first() else {
        return Err(WordFault::Bad);
    };
    match name.as_str() {
        "run" => run(alloc, rest),
        "self" => self_run(alloc, rest),
        "check" => check(alloc, rest),
        "flow" => flow(alloc, rest),
        "explore" => explore(alloc, rest),
        "--help" => help(rest),
        "--version" => version(rest),
        _ => Err(WordFault::Bad),
    }
}
