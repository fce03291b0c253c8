//! What the programs say of their versions.

ghost use Rattle.std.specs.Prelude.{◌≡◌};
ghost use Rattle.abt_words.specs.Versions.{version_text};

/// A program that says its version.
#[derive(Clone, Copy, Debug, PartialEq, Eq)]
pub enum Program {
    Run,
    Waves,
    View,
    Fold,
    Work,
}

// The line of a program of this name, with the sum of the logic by which its sources are proved, as `rt version` prints it.
macro_rules! line {
    ($name:literal) => {
        concat!($name, " 1, proved by the logic dac8208d650f15bf\n").as_bytes()
    };
}

/// What a program says of its version: a line with its name, the version, and the sum of the logic by which its sources are proved.
pub fn version(program: Program) -> &'static [u8]
    ensures { result.now ≡ version_text program }
{
    match program {
        Program::Run => line!("abtrun"),
        Program::Waves => line!("abtwaves"),
        Program::View => line!("abtview"),
        Program::Fold => line!("abtfold"),
        Program::Work => line!("abtwork"),
    }
}
