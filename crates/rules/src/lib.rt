#![tactic(auto)]

// The rules of docs/RULES.md, over any set of usable ticks, and their laws. There is no code here: specs/ has the definitions, and proofs/
// shows the laws that specs/Laws.antt states.
