//! What the resolution of statements looks at and what it leaves, as a language of sessions asks of it. The contracts are
//! theorems; nothing runs.
#![tactic(auto)]

pub mod laws;
