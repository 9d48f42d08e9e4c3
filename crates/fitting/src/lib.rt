// What a line leaves fits the program, and what an answer's last digits name: definitions and theorems alone, in specs/.
#![tactic(auto)]
