// How near the sine and the cosine are to their series: specs/Accuracy.antt states it. There is no code here.
#![tactic(auto)]
