//! Which answers an act may get.

ghost use Rattle.abt_calls.specs.Suits.{AnswersSuit};

/// An act is answered in a way that suits it.
pub fn answers_suit()
    ensures { AnswersSuit }
{}
