// A legal report in form is one for its script, whose text is read back.
#![tactic(auto)]

ghost use Rattle.report_round_trip.specs.Laws.{AnswersOfKindAreSpelled, LegalReportsAreForScripts, LegalReportsAreReadBack};

use report_reader::report::reads_texts;

/// Says that a legal report in form is a report for its script, and so is read back of its text, where
/// two things are known that legality leaves open: an attempt that isn't committed, too, tells of its
/// conditions and answers in the order of operations; and answers are such as a text can spell. They are
/// that where they are of the kinds of their reads, and values bytes.
pub fn laws_of_reading_back()
    ensures spelled { AnswersOfKindAreSpelled }
    ensures for_script { LegalReportsAreForScripts }
    ensures back { LegalReportsAreReadBack }
{
    reads_texts();
}
