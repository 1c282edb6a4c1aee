//! What the checker does at the parts of declarations that hold expressions: array lengths, specifiers, tags, fields and
//! enumerators (C89, 3.5).
#![tactic(auto)]

pub mod enumerators;
pub mod fields;
pub mod lengths;
pub mod specifiers;
pub mod structures;
pub mod tags;
