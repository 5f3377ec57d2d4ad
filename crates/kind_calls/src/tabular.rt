//! The tabular Hijri rules with each rule of leap years and each epoch, as types of their own: each is compiled for
//! itself, so no call chooses them at run time.

ghost use Rattle.std.specs.Prelude.{◌≡◌};
ghost use Rattle.cal_hijri.specs.declared.tabular_algorithm.TabularAlgorithm.{TabularAlgorithm};
ghost use Rattle.cal_hijri.specs.declared.tabular_algorithm.TabularAlgorithmEpoch.TheVariants as epoch;
ghost use Rattle.cal_hijri.specs.declared.tabular_algorithm.TabularAlgorithmLeapYears.TheVariants as leap_years;

use cal_base::scaffold::UnstableSealed;
use cal_hijri::TabularAlgorithmEpoch::{Friday, Thursday};
use cal_hijri::TabularAlgorithmLeapYears::{TypeI, TypeII};
use cal_hijri::{HijriYear, Rules, TabularAlgorithm};
use cal_types::{CalendarAlgorithm, EcmaReferenceYearError, MismatchedCalendarError, Month};
use std::fmt::Debug;

/// A type that stands for tabular rules.
pub(crate) trait TabularRules: Copy + Debug + Drop {
    /// The rules.
    ghost rules: { Self → TabularAlgorithm };

    /// Returns the rules.
    fn rules(&self) -> TabularAlgorithm
        ensures { result ≡ rules self.now };
}

/// The leap years of type II, from Friday on: `islamic-civil`.
#[derive(Clone, Copy, Debug)]
pub(crate) struct TypeIIFriday;

impl TabularRules for TypeIIFriday {
    ghost rules = { λ _. record { leap_years = leap_years.TypeII; epoch = epoch.Friday } };

    fn rules(&self) -> TabularAlgorithm {
        TabularAlgorithm::new(TypeII, Friday)
    }
}

/// The leap years of type II, from Thursday on: `islamic-tbla`.
#[derive(Clone, Copy, Debug)]
pub(crate) struct TypeIIThursday;

impl TabularRules for TypeIIThursday {
    ghost rules = { λ _. record { leap_years = leap_years.TypeII; epoch = epoch.Thursday } };

    fn rules(&self) -> TabularAlgorithm {
        TabularAlgorithm::new(TypeII, Thursday)
    }
}

/// The leap years of type I, from Friday on.
#[derive(Clone, Copy, Debug)]
pub(crate) struct TypeIFriday;

impl TabularRules for TypeIFriday {
    ghost rules = { λ _. record { leap_years = leap_years.TypeI; epoch = epoch.Friday } };

    fn rules(&self) -> TabularAlgorithm {
        TabularAlgorithm::new(TypeI, Friday)
    }
}

/// The leap years of type I, from Thursday on.
#[derive(Clone, Copy, Debug)]
pub(crate) struct TypeIThursday;

impl TabularRules for TypeIThursday {
    ghost rules = { λ _. record { leap_years = leap_years.TypeI; epoch = epoch.Thursday } };

    fn rules(&self) -> TabularAlgorithm {
        TabularAlgorithm::new(TypeI, Thursday)
    }
}

/// The rules of a type, as rules of a Hijri calendar.
#[derive(Clone, Copy, Debug)]
pub(crate) struct Fixed<K> {
    pub(crate) kind: K,
}

impl<K> UnstableSealed for Fixed<K> {}

impl<K: TabularRules> Rules for Fixed<K> {
    ghost use Rattle.cal_hijri.specs.TabularRules.{tabular_year, tabular_reference, are_same_rules, algorithm_of_rules, name_of_rules};
    ghost use Rattle.cal_hijri.specs.laws.TabularRuleLaws.{same_rules-equivalence, tabular-numbered, tabular-joins, tabular-references, tabular-shared, tabular-shared_names, tabular-shared_references};
    ghost use Rattle.std.specs.Cmp.{on_equiv};

    type DateCompatibilityError = MismatchedCalendarError;

    ghost year_of = { λ s y. tabular_year (K.rules s.kind) y };

    ghost reference = { λ s m d. tabular_reference (K.rules s.kind) m d };

    ghost compatible = { λ s t. are_same_rules (K.rules s.kind) (K.rules t.kind) };

    ghost algorithm = { λ s. algorithm_of_rules (K.rules s.kind) };

    ghost name = { λ s. name_of_rules (K.rules s.kind) };

    fn year(&self, extended_year: i32) -> HijriYear {
        self.kind.rules().year(extended_year)
    }

    fn ecma_reference_year(&self, month: Month, day: u8) -> Result<i32, EcmaReferenceYearError> {
        self.kind.rules().ecma_reference_year(month, day)
    }

    fn check_date_compatibility(&self, other: &Self) -> Result<(), MismatchedCalendarError> {
        self.kind
            .rules()
            .check_date_compatibility(&other.kind.rules())
    }

    fn calendar_algorithm(&self) -> Option<CalendarAlgorithm> {
        self.kind.rules().calendar_algorithm()
    }

    fn debug_name(&self) -> &'static str {
        self.kind.rules().debug_name()
    }

    ghost numbered = { λ s. tabular-numbered (K.rules s.kind) };

    ghost joins = { λ s. tabular-joins (K.rules s.kind) };

    ghost references = { λ s. tabular-references (K.rules s.kind) };

    ghost refusal = { λ _ _ _. record {} };

    ghost alike = { on_equiv (λ s. K.rules s.kind) same_rules-equivalence };

    ghost shared = { λ s t y h _. tabular-shared (K.rules s.kind) (K.rules t.kind) y h };

    ghost shared_references = { λ s t m d h. tabular-shared_references (K.rules s.kind) (K.rules t.kind) m d h };

    ghost shared_names = { λ s t h. tabular-shared_names (K.rules s.kind) (K.rules t.kind) h };
}
