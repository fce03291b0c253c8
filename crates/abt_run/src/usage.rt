//! How the program is called.

ghost use Rattle.std.specs.Prelude.{◌≡◌, map, string_bytes};
ghost use Rattle.abt_run.specs.Status.{usage_by, usage_of};

/// How each command is called.
pub(crate) const HELP: &[u8] =
    b"abtrun run FILE [--steps V] [--journal] [--why] [--in-turn | --seed N]\nabtrun run FILE --schedule JOURNAL [--why]\nabtrun self N\nabtrun check WORKLOAD JOURNAL [--end]\nabtrun check WORKLOAD OUTPUT --report [--why]\nabtrun flow FILE\nabtrun explore FILE [--states M] [--end K [--journal]]\nabtrun --help\nabtrun --version\n";

/// How the command is called whose name the first word is, or how each is, if that is the name of none.
pub(crate) fn usage(words: &[String]) -> &'static [u8]
    ensures { result.now ≡ usage_of (map string_bytes words.now) }
{
    match words.first() {
        Some(name) => usage_by(name.as_str()),
        None => HELP,
    }
}

// How the command of this name is called, or how each is, if it is the name of none.
fn usage_by(name: &str) -> &'static [u8]
    ensures { result.now ≡ usage_by name.now }
{
    if name == "run" {
        b"abtrun run FILE [--steps V] [--journal] [--why] [--in-turn | --seed N]\nabtrun run FILE --schedule JOURNAL [--why]\n"
    } else if name == "self" {
        b"abtrun self N\n"
    } else if name == "check" {
        b"abtrun check WORKLOAD JOURNAL [--end]\nabtrun check WORKLOAD OUTPUT --report [--why]\n"
    } else if name == "flow" {
        b"abtrun flow FILE\n"
    } else if name == "explore" {
        b"abtrun explore FILE [--states M] [--end K [--journal]]\n"
    } else if name == "--help" {
        b"abtrun --help\n"
    } else if name == "--version" {
        b"abtrun --version\n"
    } else {
        HELP
    }
}
