//! What units put out, without the places where they are.

ghost use Rattle.std.specs.Prelude.{◌≡◌, ◌++◌, All, IfOk, OnOk};
ghost use Rattle.abt_machine.specs.Pieces.{IsPieceOf};
ghost use Rattle.abt_machine.specs.Words.{ended};
ghost use Rattle.abt_report.specs.Outputs.{output_line, outputs_text};

use crate::reports::push_output;
use abt_lines::{end_line, push_decimal};
use abt_machine::{Output, Piece, Want, Workload};
use std::alloc::Global;

// Appends the line of unit u.
fn push_line(out: &mut Vec<u8>, w: &Workload, u: u64, output: &[Piece]) -> Result<(), Want>
    requires { All (IsPieceOf w.now) output.now }
    ensures { OnOk result (out.new.items ≡ out.old.items ++ ended (output_line w.now u output.now)) }
{
    out.extend_from_slice(b"unit")?;
    push_decimal(out, u)?;
    out.extend_from_slice(b":")?;
    push_output(out, w, output)?;
    end_line(out)
}

/// A line for each unit, in order of number, with what it put out.
pub fn outputs_text(alloc: Global, w: &Workload, outputs: &[Output]) -> Result<Vec<u8>, Want>
    requires words { All (All (IsPieceOf w.now)) outputs.now }
    ensures { IfOk result (λ text. text.items ≡ outputs_text w.now outputs.now) }
{
    let mut out = Vec::new(alloc);
    for (u, output) in outputs.iter().enumerate() {
        push_line(&mut out, w, u as u64, output.items())?;
    }
    Ok(out)
}
