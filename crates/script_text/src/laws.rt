//! Laws of scripts and their texts.

ghost use Rattle.std.specs.Prelude.{◌≡◌, ◌≤◌, ℕ, List, None, Some};
ghost use Rattle.name_space.specs.Script.{Script, IsScript, most_clients};
ghost use Rattle.script_text.specs.Form.{script_data, script_text};
ghost use Rattle.script_text.specs.Faults.{value_of, script_fault};
ghost use Rattle.script_text.specs.Grammar.{IsScriptText};
ghost use Rattle.script_text.specs.Generator.{most_generated_calls, generated};

/// What is generated is a script.
pub fn generated_is_a_script()
    ensures { (seed clients calls : ℕ) → 1 ≤ clients → clients ≤ most_clients → calls ≤ most_generated_calls
        → IsScript (generated seed clients calls) }
{}

/// A text denotes at most one script.
pub fn text_is_of_one_script()
    ensures { (bytes : List ℕ) (p q : Script) → IsScriptText bytes p → IsScriptText bytes q → p ≡ q }
{}

/// Bytes without a fault denote a script.
pub fn no_fault_is_a_script()
    ensures { (bytes : List ℕ) → script_fault bytes ≡ None
        → (script : Script) × IsScript script × IsScriptText bytes script }
{}

/// What a text denotes is within its ranges.
pub fn read_script_is_in_range()
    ensures { (bytes : List ℕ) (script : Script) → IsScriptText bytes script → IsScript script }
{}

/// Bytes that have the value of a script are a text of it.
pub fn written_value_is_read()
    ensures { (bytes : List ℕ) (script : Script) → IsScript script
        → value_of bytes ≡ Some (script_data script) → IsScriptText bytes script }
{}

/// The text that is written for a script is a text of it.
pub fn canonical_text_is_read()
    ensures { (script : Script) → IsScript script → IsScriptText (script_text script) script }
{}

/// No two scripts are written as one text.
pub fn canonical_text_is_of_one_script()
    ensures { (p q : Script) → IsScript p → IsScript q → script_text p ≡ script_text q → p ≡ q }
{}
