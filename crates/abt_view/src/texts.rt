//! Numbers between texts, appended to a text.

ghost use Rattle.std.specs.Prelude.{◌≡◌, ◌++◌, OnOk};
ghost use Rattle.abt_view.specs.Texts.{around};

use abt_lines::push_number;
use abt_machine::Want;

// Appends a number between two texts.
pub(crate) fn push_around(
    out: &mut Vec<u8>,
    before: &[u8],
    n: u64,
    after: &[u8],
) -> Result<(), Want>
    ensures { OnOk result (out.new.items ≡ out.old.items ++ around before.now n after.now) }
{
    out.extend_from_slice(before)?;
    push_number(out, n)?;
    out.extend_from_slice(after)?;
    Ok(())
}
