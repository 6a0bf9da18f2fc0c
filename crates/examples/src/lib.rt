// The examples of docs/FORMAT.md that are proved of the rules, as a single table, in specs/Examples.antt.

#![tactic(auto)]
