//! What holds of every text and its tokens.

ghost use Rattle.std.specs.Prelude.{◌≡◌, ◌⊎◌, ℕ, List};
ghost use Rattle.fof_lex.specs.Tokens.{Lexes, LexFails};
ghost use Rattle.fof_lex.specs.declared.token.Token.{Token};

/// Each text has one list of tokens, or is refused at one offset, and not both.
pub fn one_reading()
    ensures some { (bytes : List ℕ) → ((tokens : List Token) × Lexes 0 bytes tokens)
        ⊎ ((offset : ℕ) × LexFails 0 bytes offset) }
    ensures one_list { (bytes : List ℕ) (tokens others : List Token) → Lexes 0 bytes tokens → Lexes 0 bytes others
        → tokens ≡ others }
    ensures one_offset { (bytes : List ℕ) (offset other : ℕ) → LexFails 0 bytes offset → LexFails 0 bytes other
        → offset ≡ other }
    ensures not_both { (bytes : List ℕ) (tokens : List Token) (offset : ℕ) → Lexes 0 bytes tokens
        → LexFails 0 bytes offset → ⊥ }
{}
