// What is printed: the text of a page, and the lines of the program. Definitions and computed cases, and no code.
#![tactic(auto)]
