// Laws of what holds at a point, of the words of formulas and of files, the contracts of functions that do
// nothing.

ghost use Rattle.pz_watch.specs.Laws.{MeaningStays, HasOneReading, IsOneList, IsNeverBoth, IsOneLine};

/// What a formula says at a point of a run is the same however the run goes on. So what is answered at
/// a line is what the whole trace up to that line, or a longer one, makes of it.
pub fn meaning_stays()
    ensures { MeaningStays }
{}

/// No words are of two formulas, and the words of no formula are the front of those of another.
pub fn words_are_of_one_formula()
    ensures { HasOneReading }
{}

/// Where names are words, a file is one list of watches at most, or it is refused, at one line.
pub fn files_have_one_answer()
    ensures list { IsOneList }
    ensures never_both { IsNeverBoth }
    ensures line { IsOneLine }
{}
