#![tactic(auto)]

// Laws of lists, tests and counts that the other crates cite. It has no code of its own.
