// Theorems about whole runs of the machine: demand 3. No code.
#![tactic(auto)]
