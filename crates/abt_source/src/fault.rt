//! Which file cannot be read, and why.

ghost use Rattle.std.specs.Prelude.{◌≡◌, IfSome, Some, option_map, string_bytes};
ghost use Rattle.abt_source.specs.Fault.{blame, blame_of};

use std::alloc::Global;

/// Why a file cannot be read.
#[derive(Clone, Copy, Debug, PartialEq, Eq)]
pub enum Reason {
    /// No file has the name.
    Absent,
    /// The process may not read it.
    NotAllowed,
    /// It is a folder.
    Folder,
    /// Another reason.
    Other,
}

/// A file that cannot be read, by its name, and why.
#[derive(Clone, Copy)]
pub struct Blamed<'a> {
    pub name: &'a str,
    pub reason: Reason,
}

// The name, if there is memory to keep it.
pub(crate) fn kept_name(alloc: Global, name: &str) -> Option<String>
    ensures { IfSome result (λ kept. string_bytes kept ≡ name.now) }
{
    match String::from_str(alloc, name) {
        Ok(kept) => Some(kept),
        Err(_) => None,
    }
}

// The file of this name is to blame, if both the name and the reason are kept.
pub(crate) fn blame_for(name: &Option<String>, reason: Option<Reason>) -> Option<Blamed<'_>>
    ensures exact { option_map blame_of result ≡ blame (option_map string_bytes name.now) reason }
    ensures names { IfSome result (λ blamed. option_map string_bytes name.now ≡ Some blamed.name.now) }
{
    match (name, reason) {
        (Some(name), Some(reason)) => Some(Blamed {
            name: name.as_str(),
            reason,
        }),
        _ => None,
    }
}
