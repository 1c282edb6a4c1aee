// Specifiers (C89, 3.5.1 and 3.5.2).

ghost use Rattle.std.specs.Prelude.{◌≡◌};
ghost use Rattle.c_type_rules.specs.Kinds.{type_in};
ghost use Rattle.c_tree.specs.Parts.{unspelled, with_word, with_tagged, static_fits, spelled_rule};
ghost use Rattle.c_checker.specs.RulingView.{ruled_of};
ghost use Rattle.c_checker_parts.specs.SpelledView.{spelled_of};

use c_checker::ruling::{Ruling, settled};
use c_constants::words::{Base, Words};
use c_syntax::token::Key;
use c_syntax::tree::CType;
use c_tree::complaints::WRONG_TYPE;

/// The specifiers so far, and the type of the structure or enumeration among them.
#[derive(Drop)]
pub struct Spelled {
    pub words: Words,
    pub tagged: Option<CType>,
}

impl Spelled {
    /// No specifier.
    pub fn new() -> Spelled
        ensures { spelled_of result ≡ unspelled }
    {
        Spelled {
            words: Words::new(),
            tagged: None,
        }
    }

    /// One more word.
    pub fn add_word(&mut self, key: Key)
        ensures { spelled_of self.new ≡ with_word key (spelled_of self.old) }
    {
        self.words.add(key);
    }

    /// One more structure or enumeration, of that type where no complaint stands inside.
    pub fn add_tagged(&mut self, kind: Option<CType>)
        ensures { spelled_of self.new ≡ with_tagged (type_in kind) (spelled_of self.old) }
    {
        self.words.add_tagged();
        self.tagged = kind;
    }

    /// The type that they mean together (C89, 3.5.2).
    pub fn ruling(self) -> Ruling
        ensures { ruled_of result ≡ spelled_rule (spelled_of self) }
    {
        match self.words.base() {
            Base::Void => Ruling::Allowed(CType::Void),
            Base::Int(kind) => Ruling::Allowed(CType::Int(kind)),
            Base::Tagged => settled(self.tagged),
            Base::Wrong => Ruling::Refused(WRONG_TYPE),
        }
    }
}

/// Whether the word may stand there: `static` stands at file scope alone (C89, 3.5.1).
pub fn static_fits(key: Key, file: bool) -> bool
    ensures { result ≡ static_fits key file }
{
    match key {
        Key::Static => file,
        _ => true,
    }
}
