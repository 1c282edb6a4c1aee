//! Laws over every text, in the words of the definitions.

ghost use Rattle.std.specs.Prelude.{◌≡◌, List, Bool, [], ◌∷◌, ◌++◌, ℕ, None, Some, flat_map, slice_set, true};
ghost use Rattle.c_syntax.specs.declared.token.Token.{Token};
ghost use Rattle.c_lex.specs.declared.lexer.TextKind.{TextKind};
ghost use Rattle.c_lex.specs.Macros.{Row, Spelled};
ghost use Rattle.c_lex.specs.Expand.{expansion, gave, macro_of, replaced};
ghost use Rattle.c_lex.specs.Scan.{scanned};
ghost use Rattle.c_lex.specs.Given.{given};
ghost use Rattle.c_lex.specs.Pieces.{pieces};
ghost use Rattle.c_lex.specs.Written.{written};
ghost use Rattle.c_lex.specs.ReadBack.{AreReadable, kinds_of};

/// The pieces of a text, which are blanks, comments, directives, tokens and what is refused, join to it.
pub fn pieces_join()
    ensures { (kind : TextKind) (text : List ℕ) → flat_map (λ p. p) (pieces kind text) ≡ text }
{}

/// Macro replacement goes token by token: one that stands for nothing is given, and one that stands for tokens is
/// replaced by what these are replaced by while its name is hidden (C89, 3.8.3.4).
pub fn replacement()
    ensures none { (T : List Row) (h : List Bool) → expansion T h [] ≡ [] }
    ensures each { (T : List Row) (h : List Bool) (ts us : List Spelled) → expansion T h (ts ++ us) ≡ expansion T h ts ++ expansion T h us }
    ensures given { (T : List Row) (h : List Bool) (t : Spelled) → macro_of T h t ≡ None → expansion T h (t ∷ []) ≡ gave t ∷ [] }
    ensures replaced { (T : List Row) (h : List Bool) (t : Spelled) (m : ℕ × List Spelled) → macro_of T h t ≡ Some m → expansion T h (t ∷ []) ≡ replaced ∷ expansion T (slice_set h m.0 true) m.1 }
{}

/// What is written is read back but for the places, where a text can give these tokens.
pub fn read_back()
    ensures { (kind : TextKind) (tokens : List Token) → AreReadable kind (kinds_of tokens) → (read : List Token) × (given kind (written tokens) ≡ scanned read) × (kinds_of read ≡ kinds_of tokens) }
{}
