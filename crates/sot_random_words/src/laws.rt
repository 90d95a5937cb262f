//! What ties the words to the generator of `rand_pcg`.

ghost use Rattle.sot_random_words.specs.Laws.{Start, EachIsNext};

/// Before its first word a generator is as it was made, and each further word is one step on.
pub fn words_follow()
    ensures start { Start }
    ensures next { EachIsNext }
{}
