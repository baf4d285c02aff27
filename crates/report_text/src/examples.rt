//! Worked reports: their texts are computed as the crate is checked.

ghost use Rattle.std.specs.Prelude.{◌≡◌, true, map, codes};
ghost use Rattle.std.specs.List.{list_all};
ghost use Rattle.script_text.specs.Examples.{first_script};
ghost use Rattle.serde_json.specs.Written.{compact_text};
ghost use Rattle.report_text.specs.Keys.{key_data};
ghost use Rattle.report_text.specs.Notes.{note_data};
ghost use Rattle.report_text.specs.Answers.{answer_data};
ghost use Rattle.report_text.specs.Entries.{place_data};
ghost use Rattle.report_text.specs.FormExamples as forms;
ghost use Rattle.report_text.specs.Replies.{reply_data};
ghost use Rattle.report_text.specs.Report.{report_text};
ghost use Rattle.report_text.specs.OneReport.{report_values, ConsistsOfNames, has_words};
ghost use Rattle.report_text.specs.Examples.{locked_report, locked_notes, plain_notes, made_answers, made_tree, text_of_lines, locked_lines, plain_lines};

/// The report of the first script, in which each session took its locks.
pub fn first_report_is_written()
    ensures { report_text first_script locked_notes (made_answers 4 8) made_tree
        ≡ text_of_lines locked_lines }
{}

/// The same without locks.
pub fn first_report_without_locks_is_written()
    ensures { report_text first_script plain_notes (made_answers 1 3) made_tree
        ≡ text_of_lines plain_lines }
{}

/// The first report is one of those that their text tells.
pub fn first_report_consists_of_names()
    ensures names { ConsistsOfNames locked_report }
    ensures numbers { list_all has_words (report_values locked_report) ≡ true }
{}

/// A line of a note of each kind, with each key, each step and each cause.
pub fn notes_are_written()
    ensures keys { map (λ it. compact_text (key_data it.0)) forms.keys ≡ map (λ it. codes it.1) forms.keys }
    ensures notes { map (λ it. compact_text (note_data it.0.0 it.0.1)) forms.notes
        ≡ map (λ it. codes it.1) forms.notes }
{}

/// The text of a reply of each kind, and of each refusal.
pub fn replies_are_written()
    ensures replies { map (λ it. compact_text (reply_data it.0)) forms.replies
        ≡ map (λ it. codes it.1) forms.replies }
    ensures refusals { map (λ it. compact_text (reply_data it.0)) forms.refusals
        ≡ map (λ it. codes it.1) forms.refusals }
{}

/// A line of an answer of each end, and of entries with and without quotas and writer.
pub fn answers_and_entries_are_written()
    ensures answers { map (λ it. compact_text (answer_data it.0)) forms.answers
        ≡ map (λ it. codes it.1) forms.answers }
    ensures entries { map (λ it. compact_text (place_data it.0)) forms.places
        ≡ map (λ it. codes it.1) forms.places }
{}
