#![tactic(auto)]
// Every refusal of a feed at once: what is in the list, and what is promised of it.
