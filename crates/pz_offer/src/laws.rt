// Laws of summaries, the contract of a function that does nothing.

ghost use Rattle.std.specs.Prelude.{◌≡◌, ℕ};
ghost use Rattle.pz_offer.specs.declared.summary.Summary.{Summary};
ghost use Rattle.pz_offer.specs.Summaries.{nothing, join, shifted};

/// Joining is associative, with the summary of nothing as its neutral value, and shifting goes through
/// joining.
pub fn summaries_join()
    ensures associative { (s t u : Summary) → join (join s t) u ≡ join s (join t u) }
    ensures left { (s : Summary) → join nothing s ≡ s }
    ensures right { (s : Summary) → join s nothing ≡ s }
    ensures shifts { (by : ℕ) (s t : Summary) → shifted by (join s t) ≡ join (shifted by s)
        (shifted by t) }
{}
