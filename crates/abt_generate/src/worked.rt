//! Laws of the generator's workloads: they are valid, and that for three adders is written out as its text.

ghost use Rattle.std.specs.Prelude.{◌≡◌, ◌≤◌, ℕ};
ghost use Rattle.abt_machine.specs.Canonical.{canonical_text};
ghost use Rattle.abt_machine.specs.Limits.{adder_limit};
ghost use Rattle.abt_machine.specs.Valid.{IsValid};
ghost use Rattle.abt_generate.specs.Generated.{generated};
ghost use Rattle.abt_generate.specs.Three.{three_text};

/// The workload is valid for each number of adders up to 126.
pub fn generated_are_valid()
    ensures { (n : ℕ) → n ≤ adder_limit → IsValid (generated n) }
{}

/// What the canonical text of the workload for three is, line by line.
pub fn three()
    ensures { canonical_text (generated 3) ≡ three_text }
{}
