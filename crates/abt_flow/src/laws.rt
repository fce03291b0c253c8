//! Laws of confluent workloads: each function's contract is a law, and its body is empty.

ghost use Rattle.abt_machine.specs.Stored.{Stored};
ghost use Rattle.abt_machine.specs.declared.workload.Parts.{Parts};
ghost use Rattle.abt_flow.specs.Finishing.{OrderlyEnd, OrderlyFinish};
ghost use Rattle.abt_flow.specs.Flow.{Functions};
ghost use Rattle.abt_flow.specs.Laws.{FlowIsOne, FlowIsPutOut, OutputsAreFlow};

/// If each function that is called returns one word, then whatever the schedule of a run, if every unit has ended, the outputs
/// are the flow's.
pub fn outputs_are_flow()
    ensures { (W : Parts) (Z : Stored) → OutputsAreFlow W Z }
{}

/// If a confluent workload has a flow, then whatever the schedule of a run, if every unit has ended, the outputs are this flow.
pub fn flow_is_put_out()
    ensures { (W : Parts) (Z : Stored) → FlowIsPutOut W Z }
{}

/// A confluent workload has at most one flow.
pub fn flow_is_one()
    ensures { (W : Parts) (R : Functions) → FlowIsOne W R }
{}

/// If nothing is left to do in a run of an orderly workload, every unit is unborn or ended, whatever the schedule.
pub fn orderly_end()
    ensures { (W : Parts) (Z : Stored) → OrderlyEnd W Z }
{}

/// Each run of an orderly workload that has ended is finished, if each stream may make as many steps as there are operations.
pub fn orderly_finish()
    ensures { (W : Parts) (Z : Stored) → OrderlyFinish W Z }
{}
