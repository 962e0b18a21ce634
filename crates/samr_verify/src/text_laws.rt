//! What holds of the lines of a text and of its verdict, as functions whose contracts are the laws.

ghost use Rattle.samr_verify.specs.ReportLines.{MeaningsAreOne};
ghost use Rattle.samr_verify.specs.Verdicts.{ReportsAreTold, VerdictsAreOne, SoundTextsAreSound};

/// The law that what the lines of a report tell, gathered line by line, is the verdict on it.
pub fn reports_are_told()
    ensures { ReportsAreTold }
{}

/// The law that a text means one line at most.
pub fn meanings_are_one()
    ensures { MeaningsAreOne }
{}

/// The law that a text has one verdict.
pub fn verdicts_are_one()
    ensures { VerdictsAreOne }
{}

/// The law that a text without fault is the text of a report, each of whose meshes is a mesh of the problem with
/// exactly its true overlaps.
pub fn sound_texts_are_sound()
    ensures { SoundTextsAreSound }
{}
