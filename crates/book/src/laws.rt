//! The laws of every list of calls, each in the contract of a function that does nothing.
//! They hold over every plan, every lawful calendar and every lawful order.
ghost use Rattle.book.specs.Laws.{Always, OneAnswer, FairShares, OneWorker, WholeRuns, OnlyRuns, NoneWithdrawn, EndsDue, GoesOn, StandingsTell, SheetsFit, StandingsFit, SameUpToEnd, WordsRead};

/// Every list of calls has its answers, and no others.
pub fn one_answer()
    ensures { Always OneAnswer }
{}

/// In each interval a divided model that has a run gets exactly its weight times the interval's ticks.
pub fn fair_shares()
    ensures { Always FairShares }
{}

/// At no part of time is a model on two workers.
pub fn one_worker()
    ensures { Always OneWorker }
{}

/// A run has exactly its parts by its deadline, if its model is not withdrawn by then.
pub fn whole_runs()
    ensures { Always WholeRuns }
{}

/// A worker has a model only between a date of it and the deadline.
pub fn only_runs()
    ensures { Always OnlyRuns }
{}

/// From its withdrawal on a model gets nothing.
pub fn none_withdrawn()
    ensures { Always NoneWithdrawn }
{}

/// An interval that has a length ends at the first tick at which something is due, and a group is at rest just where nothing is.
pub fn ends_due()
    ensures { Always EndsDue }
{}

/// Every advance goes on: its interval has a length.
pub fn goes_on()
    ensures { Always GoesOn }
{}

/// A standing tells the run of a model that has one, and a divided run is neither ahead nor behind.
pub fn standings_tell()
    ensures { Always StandingsTell }
{}

/// A sheet of an interval that has a length fits 287 words of 64 bits.
pub fn sheets_fit()
    ensures { Always SheetsFit }
{}

/// A standing fits its fields.
pub fn standings_fit()
    ensures { Always StandingsFit }
{}

/// A sheet of an interval that has a length depends on no date of another group, and on none behind its end.
pub fn same_up_to_end()
    ensures { Always SameUpToEnd }
{}

/// The words of a sheet, whatever stands behind them, are read as its rows.
pub fn words_read()
    ensures { WordsRead }
{}
