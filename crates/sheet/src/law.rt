//! Worked sheets: there is nothing to run.
ghost use Rattle.sheet.specs.Worked.{WorkedSheets};

/// A sheet that reads and sheets for each cause, worked out, are read as they should.
pub fn worked_sheets()
    ensures { WorkedSheets }
{}
