//! The texts of a rule's values.

ghost use Rattle.std.specs.Prelude.{◌≡◌, length};

/// The values of a rule's parts, as texts.
#[derive(Clone, Copy)]
pub(crate) struct RuleTexts<'t> {
    /// The value of each part that is there, by the part's place.
    pub texts: [Option<&'t [u8]>; 16],
    ghost sized: { length texts ≡ 16 },
}
