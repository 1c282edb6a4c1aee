//! The grammar of statements: the reader as a plain function on lists (specs/StmtReader), proved to find each statement
//! that the grammar allows and no other one (proofs/StmtSound, StmtComplete).
#![tactic(auto)]
