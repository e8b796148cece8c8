//! Reports are written and read one way.
ghost use Rattle.report_reader.specs.Laws.{FilesAreCutOneWay, ReportsAreReadOneWay, ReadHasNoBadLine, OneLineIsBad, WrittenIsRead};

/// A file has its lines one way.
pub fn a_file_is_cut_one_way()
    ensures { FilesAreCutOneWay }
{}

/// Lines hold at most one report, at one place.
pub fn a_report_is_read_one_way()
    ensures { ReportsAreReadOneWay }
{}

/// Lines hold a report or have a first bad line, never both, and that is one line.
pub fn read_or_refused()
    ensures not_both { ReadHasNoBadLine }
    ensures one { OneLineIsBad }
{}

/// A report whose numbers lie in their ranges is read from its own text, just as it was written.
pub fn what_is_written_is_read()
    ensures { WrittenIsRead }
{}
