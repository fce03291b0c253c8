//! Pictures as texts.

ghost use Rattle.std.specs.Prelude.{◌≡◌, ◌++◌, IfOk, map, min};
ghost use Rattle.abt_kernels.specs.Pictures.{pgm_text};

use std::alloc::{AllocError, Global};

/// The picture as a text in the format PGM.
pub fn picture(
    alloc: Global,
    width: u32,
    height: u32,
    rows: &[Vec<u64>],
) -> Result<Vec<u8>, AllocError>
    ensures { IfOk result (λ text. text.items ≡ pgm_text width height (map (λ row. row.items) rows.now)) }
{
    let mut text = format!(in alloc; "P5\n{width} {height}\n255\n")?.into_bytes();
    for row in rows {
        push_row(&mut text, row)?;
    }
    Ok(text)
}

// Adds the bytes of a row.
fn push_row(text: &mut Vec<u8>, row: &[u64]) -> Result<(), AllocError>
    ensures { IfOk result (λ _. text.new.items ≡ text.old.items ++ map (min 255) row.now) }
{
    for word in row {
        text.push((*word).min(255) as u8)?;
    }
    Ok(())
}
