//! The logs of all streams and the histories of all objects are one run.

ghost use Rattle.abt_machine.specs.Stored.{Stored};
ghost use Rattle.abt_machine.specs.declared.workload.Parts.{Parts};
ghost use Rattle.abt_interleave.specs.Machines.{TellsPlaces};
ghost use Rattle.abt_simulation.specs.Merging.{MergedIsLamport, MergedIsStamped, Merging, StepsAreEvents, machine_of};

/// The machine is one of streams and objects, as merging wants it.
pub fn is_machine()
    ensures sites_apart { (W : Parts) (Z : Stored) → TellsPlaces (machine_of W Z) }
    ensures steps { (W : Parts) (Z : Stored) → StepsAreEvents W Z }
{}

/// The events of all logs, sorted by stamp and then by stream, are a run.
pub fn logs_merge()
    ensures { (W : Parts) (Z : Stored) → Merging W Z }
{}

/// Stamps that leave no gap stamp the merged journal.
pub fn merged_is_stamped()
    ensures { (W : Parts) (Z : Stored) → MergedIsStamped W Z }
{}

/// Stamps by Lamport's rule are Lamport's in the merged journal (Lamport 1978).
pub fn merged_is_lamport()
    ensures { (W : Parts) (Z : Stored) → MergedIsLamport W Z }
{}
