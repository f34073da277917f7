// The C boundary: numbers as they come in. What each call answers is in the crates character_answers, word_answers, picture_answers,
// span_answers and recording_answers, and crate brazulint exports the calls.
#![tactic(auto)]

pub mod numbers;
