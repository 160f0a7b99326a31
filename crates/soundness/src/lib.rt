// That calls keep tables sound, that a refused call changes nothing, and what a release counts. No code.
#![tactic(auto)]
