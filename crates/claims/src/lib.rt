// The customer's claims side by side, over the bytes of sheets: demand 2, demand 3 and document 01's starred cases. It has no function.
#![tactic(auto)]
