// Document 01's worked examples, as one proved statement over one list: see specs/.
#![tactic(auto)]
