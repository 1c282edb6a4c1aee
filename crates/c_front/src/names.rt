//! The names of refusals.

ghost use Rattle.std.specs.Prelude.{◌≡◌};
ghost use Rattle.c_front.specs.Names.{name};

/// The name of a refusal's number; empty where the number has none.
pub fn name_of(number: u8) -> &'static str
    ensures { result.now ≡ name number }
{
    match number {
        1 => "BadByte",
        2 => "OpenComment",
        3 => "OpenQuote",
        4 => "BadEscape",
        5 => "BadNumber",
        6 => "BadDirective",
        7 => "MacroTwice",
        8 => "TooManyTokens",
        9 => "LeftOutWord",
        20 => "Syntax",
        30 => "UnknownName",
        31 => "DeclaredTwice",
        32 => "NotALeftSide",
        33 => "WrongType",
        34 => "WrongArgCount",
        35 => "NotConstant",
        36 => "CaseTwice",
        37 => "Stray",
        38 => "NoMain",
        39 => "IncompleteType",
        40 => "Undefined",
        41 => "UnknownField",
        42 => "TooLarge",
        50 => "TooManySites",
        51 => "TooManyPairs",
        52 => "ProbeInSource",
        53 => "NotProbed",
        54 => "ProbedTooLarge",
        55 => "TooManyPointerPairs",
        56 => "TooManyGlobalPairs",
        _ => "",
    }
}
