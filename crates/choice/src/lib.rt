// Choices by a test: one of two, the lowest index that passes, how many pass. It holds definitions and their laws, and no code.

#![tactic(auto)]
