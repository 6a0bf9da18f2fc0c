// The rules of docs/FORMAT.md as definitions, in specs/. There is no code here: the crates below prove theirs against these.

#![tactic(auto)]
