// No code: the laws about the definitions of document 01 stand in specs/, one file for each subject.
#![tactic(auto)]
