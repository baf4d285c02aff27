//! What a text tells of its report.

ghost use Rattle.std.specs.Prelude.{◌≡◌, true};
ghost use Rattle.std.specs.List.{list_all};
ghost use Rattle.report_text.specs.IsReport.{Report};
ghost use Rattle.report_text.specs.OneReport.{report_values, report_bytes, report_as_read, ConsistsOfNames, has_words};

/// The values of a report's lines are of one report: reports that consist of names, and whose lines have the
/// same values, are one, but for how much room their lists have.
pub fn values_are_of_one_report()
    ensures { (p q : Report) → ConsistsOfNames p → ConsistsOfNames q
        → report_values p ≡ report_values q → report_as_read p ≡ report_as_read q }
{}

/// A text is of one report: reports that consist of names, whose numbers fit 64 bits, and whose bytes are the
/// same, are one, but for how much room their lists have.
pub fn text_is_of_one_report()
    ensures { (p q : Report) → ConsistsOfNames p → ConsistsOfNames q
        → list_all has_words (report_values p) ≡ true → list_all has_words (report_values q) ≡ true
        → report_bytes p ≡ report_bytes q → report_as_read p ≡ report_as_read q }
{}
