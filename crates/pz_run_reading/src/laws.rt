// Laws of the models of texts, each the contract of a function that does nothing.

ghost use Rattle.pz_run_reading.specs.Laws.{HasOneModel, NoModelIsRefused, NoOpenModelIsRefused};

/// A text has one model, positions included, and no text has both a model and a refusal.
pub fn one_model()
    ensures one { HasOneModel }
    ensures never_refused { NoModelIsRefused }
{
    pz_lexer::one_answer();
    pz_parser::laws::one_placed_tree();
}

/// No text has both a model that opens and a refusal.
pub fn open_or_refused()
    ensures { NoOpenModelIsRefused }
{
    one_model();
}
