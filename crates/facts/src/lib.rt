// Tables of cases that the checker computes of the rules: what 01 says of them, row by row. No code.
#![tactic(auto)]
