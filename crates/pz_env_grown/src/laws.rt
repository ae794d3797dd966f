// Laws of models that have grown, each the contract of a function that does nothing.

ghost use Rattle.pz_env_grown.specs.Laws.{GrownModelsKeepAncestors};

/// In a model that has grown out of a sound one each class has the ancestors that it had.
pub fn grown_models_keep_ancestors()
    ensures law { GrownModelsKeepAncestors }
{
    pz_bind_rules::pz_classes_rules::laws::ancestors_are_reached();
}
