//! Laws of the lists of recurrence rules, each proved as the contract of a function that does nothing.
ghost use Rattle.rule_lists.specs.RuleLists.{DayListsAreExact, RecurrenceIsDecided, RuleListsAreUnique, RulesHaveLists};

/// Every recurrence rule has exactly one list of occurrences from one day to another, in every calendar and from every
/// date on. On every day the rule recurs or doesn't recur, and its definition alone decides which. A list of days alone,
/// which without COUNT doesn't count what lies before it, has exactly the days of the occurrences.
pub fn rules_have_one_list()
    ensures decided { RecurrenceIsDecided }
    ensures exists { RulesHaveLists }
    ensures unique { RuleListsAreUnique }
    ensures days { DayListsAreExact }
{}
