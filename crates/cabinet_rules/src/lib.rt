// The rules on images, and demand 3. It has no code of its own.

#![tactic(auto)]
