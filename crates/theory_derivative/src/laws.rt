ghost use Rattle.theory_derivative.specs.Meaning.{DerivativesAreSlopes, DerivativesKeepDivisors, ExamplesMeetTheirSentence, CountersMeetTheirSentence, SentencesGiveTheRightAnswer, SentencesAreReady, LabelsAreSingle};

/// At every point the value of the written derivative is the slope.
pub fn derivatives_are_slopes()
    ensures { DerivativesAreSlopes }
{}

/// Where no divisor of an expression is 0, none of its written derivative is.
pub fn derivatives_keep_divisors()
    ensures { DerivativesKeepDivisors }
{}

/// Each sentence is met exactly at the examples, or the counterexamples, of the model.
pub fn sentences_ask_for_examples_and_counterexamples()
    ensures example { ExamplesMeetTheirSentence }
    ensures counter { CountersMeetTheirSentence }
{}

/// Right halves of the two sentences give the right answer of the model.
pub fn answers_of_sentences_are_right()
    ensures { SentencesGiveTheRightAnswer }
{}

/// The listed symbols of a claim are few and distinct, and its sentences hold no others.
pub fn sentences_hold_listed_symbols()
    ensures { SentencesAreReady }
{}

/// In a model each claim is the one that stands under its label.
pub fn labels_of_claims_are_single()
    ensures { LabelsAreSingle }
{}
