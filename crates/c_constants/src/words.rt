//! Specifier words, and which type they mean together (C89, 3.5.2).

ghost use Rattle.std.specs.Prelude.{◌≡◌};
ghost use Rattle.c_constants.specs.Words.{next, none, added, tagged, base_of};

use c_base::place::IntKind;
use c_syntax::token::Key;

/// How often a word stands.
#[derive(Clone, Copy, Debug, PartialEq, Eq)]
pub enum Count {
    Zero,
    One,
    More,
}

/// The specifiers of a declaration (C89, 3.5.2): how often each word of a type stands, and how many structures and
/// enumerations.
#[derive(Clone, Copy, Debug, PartialEq, Eq)]
pub struct Words {
    pub void: Count,
    pub char: Count,
    pub short: Count,
    pub int: Count,
    pub long: Count,
    pub signed: Count,
    pub unsigned: Count,
    pub tagged: Count,
}

/// What the specifiers mean: void, an integer type, the one structure or enumeration among them, or nothing.
#[derive(Clone, Copy, Debug, PartialEq, Eq)]
pub enum Base {
    Void,
    Int(IntKind),
    Tagged,
    Wrong,
}

impl Count {
    // One more.
    fn next(self) -> Count
        ensures { result ≡ next self }
    {
        match self {
            Count::Zero => Count::One,
            Count::One | Count::More => Count::More,
        }
    }
}

impl Words {
    /// No specifier.
    pub fn new() -> Words
        ensures { result ≡ none }
    {
        Words {
            void: Count::Zero,
            char: Count::Zero,
            short: Count::Zero,
            int: Count::Zero,
            long: Count::Zero,
            signed: Count::Zero,
            unsigned: Count::Zero,
            tagged: Count::Zero,
        }
    }

    /// One more word; only the words of a type count.
    pub fn add(&mut self, key: Key)
        ensures { self.new ≡ added self.old key }
    {
        match key {
            Key::Void => self.void = self.void.next(),
            Key::Char => self.char = self.char.next(),
            Key::Short => self.short = self.short.next(),
            Key::Int => self.int = self.int.next(),
            Key::Long => self.long = self.long.next(),
            Key::Signed => self.signed = self.signed.next(),
            Key::Unsigned => self.unsigned = self.unsigned.next(),
            _ => {}
        }
    }

    /// One more structure or enumeration.
    pub fn add_tagged(&mut self)
        ensures { self.new ≡ tagged self.old }
    {
        self.tagged = self.tagged.next();
    }

    /// What they mean together (C89, 3.5.2).
    pub fn base(&self) -> Base
        ensures { result ≡ base_of self.now }
    {
        use Count::{One, Zero};
        use IntKind::{Char, Int, Long, Short, UChar, UInt, ULong, UShort};
        match (
            self.void,
            self.char,
            self.short,
            self.int,
            self.long,
            self.signed,
            self.unsigned,
            self.tagged,
        ) {
            (One, Zero, Zero, Zero, Zero, Zero, Zero, Zero) => Base::Void,
            (Zero, One, Zero, Zero, Zero, Zero | One, Zero, Zero) => Base::Int(Char),
            (Zero, One, Zero, Zero, Zero, Zero, One, Zero) => Base::Int(UChar),
            (Zero, Zero, One, Zero | One, Zero, Zero | One, Zero, Zero) => Base::Int(Short),
            (Zero, Zero, One, Zero | One, Zero, Zero, One, Zero) => Base::Int(UShort),
            (Zero, Zero, Zero, One, Zero, Zero, Zero, Zero) => Base::Int(Int),
            (Zero, Zero, Zero, Zero | One, Zero, One, Zero, Zero) => Base::Int(Int),
            (Zero, Zero, Zero, Zero | One, Zero, Zero, One, Zero) => Base::Int(UInt),
            (Zero, Zero, Zero, Zero | One, One, Zero | One, Zero, Zero) => Base::Int(Long),
            (Zero, Zero, Zero, Zero | One, One, Zero, One, Zero) => Base::Int(ULong),
            (Zero, Zero, Zero, Zero, Zero, Zero, Zero, One) => Base::Tagged,
            _ => Base::Wrong,
        }
    }
}
