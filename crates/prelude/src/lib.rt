// What the definition and the words of the code share and antt's libraries lack: specs alone, no code.
#![tactic(auto)]
