//! Laws of the texts of the commands, each proved as the contract of a function that does nothing.
ghost use Rattle.calspan_run.specs.Answers.{IsAnswers};
ghost use Rattle.command_line.specs.Asked.{AnniversaryAsked, HolidaysAsked, RecurAsked};
ghost use Rattle.command_line.specs.ConvertAsked.{ConvertAsked};
ghost use Rattle.command_line.specs.RruleAsked.{RruleAsked};
ghost use Rattle.calspan_run.specs.Laws.{AnniversariesAreMeant, HolidaysAreMeant, OccurrencesAreMeant, EveryInputHas, IsUnique, PrefixesHavePrefixes, EveryNumberHasOneLine, EndsAsConvert, EndsAsHolidays, EndsAsList};
ghost use Rattle.calspan_run.specs.ListTexts.{ListsAnniversaries, ListsOccurrences};
ghost use Rattle.calspan_run.specs.RuleLists.{ListsRule};
ghost use Rattle.calspan_run.specs.Rules.{holiday_rules, list_rules, record_rules};
ghost use Rattle.calspan_run.specs.Streaming.{convert_rules};

/// Every input of `span`, and every part of an input that has come, has a text and a status.
pub fn every_input_has_answers()
    ensures { EveryInputHas IsAnswers }
{}

/// No input of `span` has two texts or two statuses.
pub fn answers_are_unique()
    ensures { IsUnique IsAnswers }
{}

/// The text for the part of an input of `span` that has come is a prefix of every later text.
pub fn answers_to_a_prefix_are_a_prefix()
    ensures { PrefixesHavePrefixes IsAnswers }
{}

/// Every number of generated requests has exactly one line of `gen`.
pub fn every_number_has_one_line()
    ensures { EveryNumberHasOneLine }
{}

/// Every input has exactly one text and one status with any arguments of `anniversary`.
pub fn anniversaries_have_one_text()
    ensures exists { (asked : AnniversaryAsked) → EveryInputHas (list_rules (ListsAnniversaries asked)).Says }
    ensures unique { (asked : AnniversaryAsked) → IsUnique (list_rules (ListsAnniversaries asked)).Says }
{}

/// The list of `anniversary` has exactly the days of its window on which the month and the day fall, each once and in
/// order.
pub fn anniversaries_are_meant()
    ensures { AnniversariesAreMeant }
{}

/// Every input has exactly one text and one status with any arguments of `recur`.
pub fn recurrences_have_one_text()
    ensures exists { (asked : RecurAsked) → EveryInputHas (list_rules (ListsOccurrences asked)).Says }
    ensures unique { (asked : RecurAsked) → IsUnique (list_rules (ListsOccurrences asked)).Says }
{}

/// Over accepted tables, the list of `recur` has exactly the occurrences of the rule in its window, with their indices,
/// each once and in order.
pub fn occurrences_are_meant()
    ensures { OccurrencesAreMeant }
{}

/// Every input has exactly one text and one status with any arguments of `rrule`: every text of a rule spells one rule or
/// has one first error, and every rule has one list.
pub fn rules_have_one_text()
    ensures exists { (asked : RruleAsked) → EveryInputHas (list_rules (ListsRule asked)).Says }
    ensures unique { (asked : RruleAsked) → IsUnique (list_rules (ListsRule asked)).Says }
{}

/// Every input has exactly one text and one status with any arguments of `holidays`.
pub fn holidays_have_one_text()
    ensures exists { (asked : HolidaysAsked) → EveryInputHas (holiday_rules asked).Says }
    ensures unique { (asked : HolidaysAsked) → IsUnique (holiday_rules asked).Says }
{}

/// Every input has exactly one text and one status with `explain holidays`.
pub fn explained_records_have_one_text()
    ensures exists { EveryInputHas record_rules.Says }
    ensures unique { IsUnique record_rules.Says }
{}

/// The list of `holidays` has exactly the days of its window that a rule of the book names, for each rule once and in
/// order.
pub fn holidays_are_meant()
    ensures { HolidaysAreMeant }
{}

/// Every input of `convert`, and every part of an input that has come, has a text and a status, with any arguments.
pub fn every_input_has_conversions()
    ensures { (asked : ConvertAsked) → EveryInputHas (convert_rules asked).Says }
{}

/// No input of `convert` has two texts or two statuses.
pub fn conversions_are_unique()
    ensures { (asked : ConvertAsked) → IsUnique (convert_rules asked).Says }
{}

/// The text for the part of an input of `convert` that has come is a prefix of every later text.
pub fn conversions_of_a_prefix_are_a_prefix()
    ensures { (asked : ConvertAsked) → PrefixesHavePrefixes (convert_rules asked).Says }
{}

/// Every run of `anniversary`, `recur` or `holidays` has read and written the bytes that its status describes.
pub fn runs_of_lists_end()
    ensures anniversary { (asked : AnniversaryAsked) → EndsAsList (ListsAnniversaries asked) }
    ensures recur { (asked : RecurAsked) → EndsAsList (ListsOccurrences asked) }
    ensures holidays { (asked : HolidaysAsked) → EndsAsHolidays asked }
{}

/// Every run of `convert` has read and written the bytes that its status describes.
pub fn runs_of_convert_end()
    ensures { (asked : ConvertAsked) → EndsAsConvert asked }
{}
