//! The laws of the translation.

ghost use Rattle.translation.specs.Laws.{HaveTranslations, IsSound, IsTextual};

/// The translation of the closed tree of an offer of the round refutes the problem's start list.
pub fn refutes()
    ensures { IsSound }
{}

/// Its text can be written, where its terms nest no deeper than a text allows.
pub fn spells()
    ensures { IsTextual }
{}

/// Each offer that closes a tableau has a translation there, and one alone.
pub fn one_translation()
    ensures { HaveTranslations }
{}
