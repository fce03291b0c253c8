//! Laws of the grammar.

ghost use Rattle.std.specs.Prelude.{◌≡◌, true};
ghost use Rattle.std.specs.List.{list_all};
ghost use Rattle.abt_machine.specs.Forms.{forms};
ghost use Rattle.abt_machine.specs.declared.workload.Parts.{Parts};
ghost use Rattle.abt_machine.specs.Words.{Text};
ghost use Rattle.abt_workload.specs.Hints.{names_its_word};
ghost use Rattle.abt_workload.specs.Laws.{HasText, IsNotBoth, IsReadOrRefused, ReadsOnce, ReadsValid, RefusesOnce};

/// Each text either reads to one workload, or is refused at one line with one fault.
pub fn each_text_has_one_answer()
    ensures one_of_both { (text : Text) → IsReadOrRefused text }
    ensures not_both { (text : Text) → IsNotBoth text }
    ensures one_workload { (text : Text) → ReadsOnce text }
    ensures one_refusal { (text : Text) → RefusesOnce text }
{}

/// What is said of the shape of a line names the word that the line begins with, for each form of lines.
pub fn each_form_is_said()
    ensures { list_all names_its_word forms ≡ true }
{}

/// Parts are those of a workload exactly if some text reads to them; then the canonical text does.
pub fn valid_parts_have_a_text()
    ensures canonical { (W : Parts) → HasText W }
    ensures only_valid { (text : Text) (W : Parts) → ReadsValid text W }
{}
