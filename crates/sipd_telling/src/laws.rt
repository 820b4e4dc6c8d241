ghost use Rattle.std.specs.Prelude.{◌≡◌, List, Option, None};
ghost use Rattle.sip_listener.specs.Heard.{Heard};
ghost use Rattle.sipd_telling.specs.Onward.{new_steps};
ghost use Rattle.sipd_telling.specs.Records.{SaysHistory, SaysMore};
ghost use Rattle.sipd_telling.specs.declared.onward.DayPoint.{DayPoint};

pub use sip_retell::laws::what_is_told_is_lawful;

/// The history of one record alone are all of its steps; so are those of a record that doesn't follow the one before.
pub fn a_record_alone_is_its_steps()
    ensures alone { (day : List Heard) (reached : Option DayPoint) → (h : SaysMore day reached (SaysHistory 0)) → day ≡ h.steps }
    ensures unknown { (point : DayPoint) (steps : List Heard) → new_steps None point steps ≡ steps }
{}
