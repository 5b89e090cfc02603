//! A law of the definitions. It is the contract of a function with an empty body.

ghost use Rattle.tt_services.specs.Agreement.{ServicesAgree};

/// The services are those of the definitions of a run, restricted to the parts of a world that they
/// change.
pub fn services_agree()
    ensures { ServicesAgree }
{}
