//! Reports.

ghost use Rattle.std.specs.Prelude.{◌≡◌, IfOk};
ghost use Rattle.report_text.specs.IsReport.{IsReport};
ghost use Rattle.report_text.specs.Report.{report_text};

use crate::lines::{add_answers, add_counts, add_head, add_notes, add_places};
use commit_log::{AnswerLine, Book};
use hops_base::{ItemList, NoMemory, Path};
use name_space::Entry;
use script_text::Script;
use std::alloc::Global;
use std::marker::Model;

/// Answers, by client and call.
pub type AnswerList = ItemList<AnswerLine>;

/// The paths of a namespace and what stands at them, in the order of the paths.
pub type TreeList = ItemList<(Path, Entry)>;

/// A script, the book of its run, what was answered to its calls, and the last namespace. Each call of the
/// script has one answer, by client and call. The paths of the namespace rise strictly and begin with `/`.
#[derive(Debug, Drop)]
pub struct Report {
    script: Script,
    book: Book,
    answers: AnswerList,
    tree: TreeList,
}

impl Model for Report {
    ghost use Rattle.report_text.specs.IsReport as seen;

    ghost Value = { seen.Report };

    ghost view = { λ r. record { script = r.script; notes = r.book.notes; answers = r.answers.items; tree = r.tree.items } };

    ghost invariant = { λ r. seen.IsReport (record { script = r.script; notes = r.book.notes; answers = r.answers.items; tree = r.tree.items }) };
}

impl Report {
    /// The report of these parts, which fit together.
    pub fn new(script: Script, book: Book, answers: AnswerList, tree: TreeList) -> Report
        requires { IsReport (record { script = script; notes = book.notes; answers = answers.items; tree = tree.items }) }
        ensures { result
            ≡ record { script = script; notes = book.notes; answers = answers.items; tree = tree.items } }
    {
        Report {
            script,
            book,
            answers,
            tree,
        }
    }

    /// The script.
    pub fn script(&self) -> &Script
        ensures script { result.now ≡ self.now.script }
        ensures report { IsReport self.now }
    {
        &self.script
    }

    /// The book of its run.
    pub fn book(&self) -> &Book
        ensures { result.now.notes ≡ self.now.notes }
    {
        &self.book
    }

    /// What was answered to the calls, by client and call.
    pub fn answers(&self) -> &[AnswerLine]
        ensures answers { result.now ≡ self.now.answers }
        ensures report { IsReport self.now }
    {
        self.answers.as_slice()
    }

    /// The last namespace, in the order of the paths.
    pub fn tree(&self) -> &[(Path, Entry)]
        ensures tree { result.now ≡ self.now.tree }
        ensures report { IsReport self.now }
    {
        self.tree.as_slice()
    }
}

/// The text of a report: lines of compact JSON, each ended by a newline. The first has the script; then comes
/// a line for each note, for each answer and for each path, and a line that counts them.
pub fn write_report(alloc: Global, report: &Report) -> Result<Vec<u8>, NoMemory>
    ensures { IfOk result (λ bytes. bytes.items ≡ report_text report.now.script report.now.notes report.now.answers report.now.tree) }
{
    report_of(
        alloc,
        report.script(),
        report.book(),
        report.answers(),
        report.tree(),
    )
}

/// The text of the report of a script, a book, answers and a namespace in the order of its paths.
pub fn report_of(
    alloc: Global,
    script: &Script,
    book: &Book,
    answers: &[AnswerLine],
    tree: &[(Path, Entry)],
) -> Result<Vec<u8>, NoMemory>
    ensures { IfOk result (λ bytes. bytes.items ≡ report_text script.now book.now.notes answers.now tree.now) }
{
    let mut text = Vec::new(alloc);
    add_head(alloc, &mut text, script)?;
    add_notes(alloc, &mut text, 0, book.notes())?;
    add_answers(alloc, &mut text, answers)?;
    add_places(alloc, &mut text, tree)?;
    let (answers, places) = (answers.len() as u64, tree.len() as u64);
    add_counts(alloc, &mut text, book.len(), answers, places)?;
    Ok(text)
}
