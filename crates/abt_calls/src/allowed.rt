//! What may be asked of an object.

ghost use Rattle.abt_calls.specs.Allowed.{AllowedIsAnswered, AllowedStays, OneAnswer};

/// No act changes what may be asked of an object.
pub fn allowed_stays()
    ensures { AllowedStays }
{}

/// What may be asked is answered.
pub fn allowed_is_answered()
    ensures { AllowedIsAnswered }
{}

/// There is one answer to an act, and one object afterwards.
pub fn one_answer()
    ensures { OneAnswer }
{}
