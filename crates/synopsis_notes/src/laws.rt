//! What holds of the first sentence of every text.

ghost use Rattle.std.specs.Prelude.{◌≡◌, ℕ, List, None};
ghost use Rattle.synopsis_notes.specs.Synopses.{sentence_behind};
ghost use Rattle.synopsis_notes.specs.Sentences.{IsFirstSentence};

/// A text has one first sentence: the beginning that ends where a sentence first can, or the whole
/// text where none can. It is the one that a synopsis is made of. The call does nothing.
pub fn text_has_one_first_sentence()
    ensures one { (text : List ℕ) → IsFirstSentence text (sentence_behind None None text) }
    ensures no_other { (text sentence : List ℕ) → IsFirstSentence text sentence
        → sentence ≡ sentence_behind None None text }
{}
