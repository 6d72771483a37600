//! What is known of the symbols.

ghost use Rattle.fol_core.specs.Symbol.{AreSymbols};

use fol_core::Symbols;

/// What the type keeps of its function symbols.
pub(crate) fn keeps_symbols(symbols: &Symbols)
    ensures { AreSymbols symbols.now.functions }
{
    symbols.keeps()
}
