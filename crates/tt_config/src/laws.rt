//! What the rules on bodies say of a configuration. The function states a law, and does nothing.

ghost use Rattle.tt_config.specs.BodyRules.{BodiesAreSound};

/// Where no line breaks a rule on bodies, the bodies of the configuration that rows give keep its
/// rules.
#[tactic(auto, using(crate::proofs::SoundBodies::law))]
pub fn bodies_are_sound()
    ensures { BodiesAreSound }
{}
