//! What a booth stands round.

/// A sequential object: it answers acts, one after another, and each act changes it.
///
/// Say what it means by `does`, what may be asked of it by `allowed`, and prove that `allowed` never changes.
pub trait Object {
    /// What the object is asked.
    type Act;

    /// What it answers.
    type Answer;

    // Which acts may be asked of an object. It speaks of what no act changes.
    ghost allowed: { Self → Self.Act → Type 0 };

    // What the object means: the old object, an act, its answer and the new object.
    ghost does: { Self → Self.Act → Self.Answer → Self → Type 0 };

    /// Answers an act. It runs under the booth's lock, so it should be short.
    fn run(&mut self, act: Self::Act) -> Self::Answer
        requires { allowed self.old act }
        ensures { does self.old act result self.new };

    // An act that may be asked of an object may be asked of it after every other act.
    ghost keeps: { (before : Self) (act : Self.Act) (answer : Self.Answer) (after : Self) (other : Self.Act) → does before act answer after → allowed before other → allowed after other };
}
