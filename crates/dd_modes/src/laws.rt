//! What turning is: a law, with nothing to run.

ghost use Rattle.dd_modes.specs.Turning.{TurningIsOneToOne};

/// Two points of a turned picture at which the same point of the surface stands are the same point.
pub fn turning_is_one_to_one()
    ensures { TurningIsOneToOne }
{}
