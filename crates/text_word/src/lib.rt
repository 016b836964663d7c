// The words for answers and modes.

#![tactic(auto)]

ghost use Rattle.std.specs.Prelude.{◌≡◌};
ghost use Rattle.text_word.specs.Words.{answer_word as word_of_answer, mode_word as word_of_mode};

use end_state::Mode;
use receive_answer::Answer;

// The word of an answer.
pub fn answer_word(answer: Answer) -> &'static [u8]
    ensures { result.now ≡ word_of_answer answer }
{
    match answer {
        Answer::Refused(_) => b"refused",
        Answer::Held => b"held",
        Answer::Delivered(_) => b"delivered",
        Answer::Duplicate => b"duplicate",
        Answer::Idle => b"idle",
        Answer::Replayed => b"replayed",
        Answer::Ahead => b"ahead",
        Answer::Skipped => b"skipped",
        Answer::Damaged => b"damaged",
        Answer::Discarded => b"discarded",
        Answer::Down(_) => b"down",
    }
}

// The word of a mode.
pub fn mode_word(mode: Mode) -> &'static [u8]
    ensures { result.now ≡ word_of_mode mode }
{
    match mode {
        Mode::Run => b"run",
        Mode::Wait => b"wait",
        Mode::Down => b"down",
    }
}
