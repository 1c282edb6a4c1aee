// Tokens as they are written.

ghost use Rattle.std.specs.Prelude.{◌≡◌, List, [], ◌∷◌, ◌++◌, map, OnOk};

use crate::text::Text;
use crate::token::{Key, Mark, ProbeWord, Token, TokenKind};
use c_base::place::{NoMemory, Pos};
use std::alloc::Global;
use std::marker::Model;

/// A list of kinds of tokens, each kept as a token at line 1, column 1.
#[derive(Drop)]
pub struct Writer {
    alloc: Global,
    tokens: Vec<Token>,
}

impl Model for Writer {
    ghost use Rattle.std.specs.Prelude.{◌≡◌, List, map};
    ghost use Rattle.c_syntax.specs.Forms.{kinds_of};
    ghost use Rattle.c_syntax.specs.Start.{at_start};
    ghost use Rattle.c_syntax.specs.declared.token.TokenKind.{TokenKind};

    ghost Value = { List TokenKind };

    ghost view = { λ w. kinds_of w.tokens.items };

    ghost invariant = { λ w. w.tokens.items ≡ map at_start (kinds_of w.tokens.items) };
}

ghost use Rattle.c_syntax.specs.Forms.{kinds_of};
ghost use Rattle.c_syntax.specs.Start.{AllAtStart};
ghost use Rattle.c_syntax.specs.declared.token.TokenKind.{TokenKind};

impl Writer {
    /// No token.
    pub fn new(alloc: Global) -> Self
        ensures { result ≡ [] }
    {
        Writer {
            alloc,
            tokens: Vec::new(alloc),
        }
    }

    /// Appends a token of a kind.
    pub fn put(&mut self, kind: TokenKind) -> Result<(), NoMemory>
        ensures { OnOk result (self.new ≡ self.old ++ kind ∷ []) }
    {
        let pos = Pos { line: 1, col: 1 };
        match self.tokens.push(Token { kind, pos }) {
            Ok(()) => Ok(()),
            Err(_) => Err(NoMemory),
        }
    }

    /// Appends a mark.
    pub fn mark(&mut self, mark: Mark) -> Result<(), NoMemory>
        ensures { OnOk result (self.new ≡ self.old ++ TokenKind.Mark mark ∷ []) }
    {
        self.put(TokenKind::Mark(mark))
    }

    /// Appends a keyword.
    pub fn key(&mut self, key: Key) -> Result<(), NoMemory>
        ensures { OnOk result (self.new ≡ self.old ++ TokenKind.Key key ∷ []) }
    {
        self.put(TokenKind::Key(key))
    }

    /// Appends a probe word.
    pub fn probe(&mut self, word: ProbeWord) -> Result<(), NoMemory>
        ensures { OnOk result (self.new ≡ self.old ++ TokenKind.Probe word ∷ []) }
    {
        self.put(TokenKind::Probe(word))
    }

    /// Appends a word.
    pub fn word(&mut self, text: &Text) -> Result<(), NoMemory>
        ensures { OnOk result (self.new ≡ self.old ++ TokenKind.Word text.now ∷ []) }
    {
        let text = text.copy(self.alloc)?;
        self.put(TokenKind::Word(text))
    }

    /// Appends a number.
    pub fn number(&mut self, text: &Text) -> Result<(), NoMemory>
        ensures { OnOk result (self.new ≡ self.old ++ TokenKind.Number text.now ∷ []) }
    {
        let text = text.copy(self.alloc)?;
        self.put(TokenKind::Number(text))
    }

    /// Appends a string.
    pub fn string(&mut self, text: &Text) -> Result<(), NoMemory>
        ensures { OnOk result (self.new ≡ self.old ++ TokenKind.Str text.now ∷ []) }
    {
        let text = text.copy(self.alloc)?;
        self.put(TokenKind::Str(text))
    }

    /// The tokens.
    #[tactic(auto, using(crate::proofs::Start::all_at_start))]
    pub fn into_tokens(self) -> Vec<Token>
        ensures kinds { kinds_of result.items ≡ self }
        ensures placed { AllAtStart result.items }
    {
        let Writer { alloc: _, tokens } = self;
        tokens
    }
}
