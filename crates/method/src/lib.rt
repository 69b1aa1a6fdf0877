#![tactic(auto)]

// The D3 method.
