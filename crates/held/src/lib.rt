#![tactic(auto)]
// What a filled table holds, number by number: laws for the rules that read it.
