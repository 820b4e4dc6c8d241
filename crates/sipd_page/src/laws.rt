ghost use Rattle.std.specs.Prelude.{◌≡◌, List, ◌++◌};
ghost use Rattle.sip_listener.specs.Heard.{Heard};
ghost use Rattle.sipd_telling.specs.Onward.{HearsAll};
ghost use Rattle.sipd_page.specs.declared.history.History.{History};
ghost use Rattle.sipd_page.specs.Days.{day_lines};
ghost use Rattle.sipd_page.specs.History.{HearsHistory};

/// The lines that are kept of records are those of the steps of their history, from the first on, in their order, and nothing else.
pub fn lines_are_those_of_the_steps()
    ensures { (old new : History) (day : List Heard) → HearsAll HearsHistory old new day → new.lines ≡ old.lines ++ day_lines day }
{}
