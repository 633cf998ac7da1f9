// One sheet, worked by the definitions: specs/Worked.antt. There is no code here.
#![tactic(auto)]
