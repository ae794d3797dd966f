// Laws of scripts, the contract of a function that does nothing.

ghost use Rattle.pz_env_script.specs.Laws.{IsOneScript, IsNeverBoth, IsOneLine, HasAnAnswer};

/// A text is exactly one script, or it is none, from exactly one line on.
pub fn texts_have_one_answer()
    ensures script { IsOneScript }
    ensures never_both { IsNeverBoth }
    ensures line { IsOneLine }
    ensures some { HasAnAnswer }
{}
