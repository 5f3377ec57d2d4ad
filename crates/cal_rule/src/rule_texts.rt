//! The values of a rule's parts, as texts.

ghost use Rattle.std.specs.Prelude.{◌≡◌, ◌||◌, None, Some, option_map, if◌then◌else◌};
ghost use Rattle.std.specs.Option.{is_some, option_or};
ghost use Rattle.std.specs.Result.{MatchResult};
ghost use Rattle.cal_rule.specs.RuleNames.{is_part};
ghost use Rattle.cal_rule.specs.RuleText.{error_if, has_ordinals, part_fault, parts_of, repeated_or, said_by, value_if, value_of};
ghost use Rattle.cal_rule.specs.TextTable.{IsAdded, IsSplit, text_of};

use crate::pieces::{cut, halves};
use crate::rule_error::RuleError;
use crate::rule_part::RulePart;
use crate::text_table::RuleTexts;
use crate::values::value_fault;
use cal_kinds::AnyCalendarKind;

impl<'t> RuleTexts<'t> {
    /// Returns the value of a part, if the part is there.
    pub(crate) fn text(&self, part: RulePart) -> Option<&'t [u8]>
        ensures { option_map (λ text. text.now) result ≡ text_of self.now part }
    {
        self.texts[part.place()]
    }

    /// Sets the value of a part.
    fn put(&mut self, part: RulePart, value: &'t [u8])
        ensures { (p : RulePart) →
            text_of self.new p ≡ (if is_part p part then Some value.now else text_of self.old p) }
    {
        self.texts[part.place()] = Some(value);
    }

    /// Adds the value of a part, unless the part is there already or the value isn't one of it.
    fn add_value(
        &mut self,
        kind: AnyCalendarKind,
        part: RulePart,
        value: &'t [u8],
    ) -> Result<(), RuleError>
        ensures { IsAdded result (repeated_or kind (text_of self.old) part value.now)
            (λ p. value_if p (Some part) value.now) (text_of self.old) (text_of self.new) }
    {
        if self.text(part).is_some() {
            return Err(RuleError::RepeatedPart(part));
        }
        match value_fault(kind, part, value) {
            Some(error) => Err(error),
            None => {
                self.put(part, value);
                Ok(())
            }
        }
    }

    /// Adds a part with its value.
    fn add(&mut self, kind: AnyCalendarKind, part: &'t [u8]) -> Result<(), RuleError>
        ensures { IsAdded result (part_fault kind (text_of self.old) part.now) (said_by part.now)
            (text_of self.old) (text_of self.new) }
    {
        let Some((name, value)) = halves(part, b'=') else {
            return Err(RuleError::BadPart);
        };
        match RulePart::named(name) {
            None => Err(RuleError::UnknownPart),
            Some(part) => self.add_value(kind, part, value),
        }
    }

    /// Splits a rule into its parts. The error is that of the first invalid part.
    pub(crate) fn read(kind: AnyCalendarKind, text: &'t [u8]) -> Result<RuleTexts<'t>, RuleError>
        ensures { IsSplit kind (parts_of text.now) result }
    {
        let mut texts = RuleTexts { texts: [None; 16] };
        let mut rest = Some(text);
        'parts: while let Some(left) = rest {
            let (part, others) = cut(left, b';');
            texts.add(kind, part)?;
            rest = others;
        }
        Ok(texts)
    }
}
