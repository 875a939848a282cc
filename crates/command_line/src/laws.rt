//! Laws on command lines.
ghost use Rattle.command_line.specs.Laws.{OneReading, OneChain, ChainIsNotNone, NoFilterIsEmptyChain, JobBeginsNoFilter, NamedRulesBegin};

/// Words are the line of at most one job, and of one list of settings.
pub fn lines_have_one_reading()
    ensures { OneReading }
{}

/// The leading words name at most one chain of filters, and where they name one, no filter's word stands there without the words that are due behind
/// it, and not more than 16 filters.
pub fn leading_words_have_one_reading()
    ensures one { OneChain }
    ensures none { ChainIsNotNone }
{}

/// Words that begin with no filter's word name the chain without members, and a command line of a job is among these.
pub fn lines_begin_no_filter()
    ensures empty { NoFilterIsEmptyChain }
    ensures jobs { JobBeginsNoFilter }
{}

/// The rules that words name have bytes as tints, and room to count 2^63 commands.
pub fn named_rules_begin()
    ensures { NamedRulesBegin }
{}
