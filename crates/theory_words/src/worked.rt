ghost use Rattle.std.specs.Prelude.{[], ◌∷◌, codes};
ghost use Rattle.theory_meaning.specs.declared.words.Kind.TheVariants as kind;
ghost use Rattle.theory_words.specs.Commands.{check, derive, IsCommand, IsNoCommand};

/// Words of a check in other forms: the order behind `=`, and a file that begins with `-`.
pub fn other_forms_of_a_check()
    ensures equals { IsCommand (codes "check" ∷ codes "--order=rare" ∷ codes "a" ∷ [])
        (check (codes "a") kind.Rare []) }
    ensures hyphen { IsCommand (codes "check" ∷ codes "-" ∷ []) (check (codes "-") kind.Unit []) }
    ensures dashes { IsCommand (codes "check" ∷ codes "--" ∷ codes "-a" ∷ [])
        (check (codes "-a") kind.Unit []) }
    ensures last { IsCommand (codes "check" ∷ codes "a" ∷ codes "--" ∷ [])
        (check (codes "a") kind.Unit []) }
{}

/// Words behind `check` that are refused for the file.
pub fn refused_files_of_a_check()
    ensures none { IsNoCommand (codes "check" ∷ []) }
    ensures two { IsNoCommand (codes "check" ∷ codes "a" ∷ codes "b" ∷ []) }
    ensures hyphen { IsNoCommand (codes "check" ∷ codes "-a" ∷ []) }
    ensures dashes { IsNoCommand (codes "check" ∷ codes "--" ∷ []) }
    ensures help { IsNoCommand (codes "check" ∷ codes "--help" ∷ []) }
    ensures version { IsNoCommand (codes "check" ∷ codes "--version" ∷ codes "a" ∷ []) }
{}

/// Words behind `check` that are refused for the order.
pub fn refused_orders_of_a_check()
    ensures other { IsNoCommand (codes "check" ∷ codes "a" ∷ codes "--order" ∷ codes "other" ∷ []) }
    ensures case { IsNoCommand (codes "check" ∷ codes "a" ∷ codes "--order" ∷ codes "Unit" ∷ []) }
    ensures none { IsNoCommand (codes "check" ∷ codes "a" ∷ codes "--order" ∷ []) }
    ensures empty { IsNoCommand (codes "check" ∷ codes "a" ∷ codes "--order=" ∷ []) }
    ensures twice { IsNoCommand (codes "check" ∷ codes "a" ∷ codes "--order" ∷ codes "unit"
        ∷ codes "--order" ∷ codes "rare" ∷ []) }
    ensures same { IsNoCommand (codes "check" ∷ codes "--order=unit" ∷ codes "--order=unit"
        ∷ codes "a" ∷ []) }
    ensures short { IsNoCommand (codes "check" ∷ codes "a" ∷ codes "-o" ∷ codes "unit" ∷ []) }
    ensures cut { IsNoCommand (codes "check" ∷ codes "a" ∷ codes "--ord" ∷ codes "unit" ∷ []) }
    ensures alone { IsNoCommand (codes "check" ∷ codes "--order" ∷ codes "unit" ∷ []) }
{}

/// Names of a check: one value, cut at its commas, and empty names where nothing stands between.
pub fn names_of_a_check()
    ensures one { IsCommand (codes "check" ∷ codes "a" ∷ codes "--on" ∷ codes "x" ∷ [])
        (check (codes "a") kind.Unit (codes "x" ∷ [])) }
    ensures several { IsCommand (codes "check" ∷ codes "a" ∷ codes "--on" ∷ codes "x,y,x" ∷ [])
        (check (codes "a") kind.Unit (codes "x" ∷ codes "y" ∷ codes "x" ∷ [])) }
    ensures equals { IsCommand (codes "check" ∷ codes "--on=x" ∷ codes "--order=rare" ∷ codes "a"
        ∷ []) (check (codes "a") kind.Rare (codes "x" ∷ [])) }
    ensures empty { IsCommand (codes "check" ∷ codes "a" ∷ codes "--on" ∷ codes "" ∷ [])
        (check (codes "a") kind.Unit ([] ∷ [])) }
    ensures nothing { IsCommand (codes "check" ∷ codes "a" ∷ codes "--on=" ∷ [])
        (check (codes "a") kind.Unit ([] ∷ [])) }
    ensures between { IsCommand (codes "check" ∷ codes "a" ∷ codes "--on" ∷ codes "x,,x" ∷ [])
        (check (codes "a") kind.Unit (codes "x" ∷ [] ∷ codes "x" ∷ [])) }
    ensures around { IsCommand (codes "check" ∷ codes "a" ∷ codes "--on" ∷ codes ",x," ∷ [])
        (check (codes "a") kind.Unit ([] ∷ codes "x" ∷ [] ∷ [])) }
{}

/// Words behind `check` that are refused for the names.
pub fn refused_names_of_a_check()
    ensures none { IsNoCommand (codes "check" ∷ codes "a" ∷ codes "--on" ∷ []) }
    ensures twice { IsNoCommand (codes "check" ∷ codes "a" ∷ codes "--on" ∷ codes "x"
        ∷ codes "--on" ∷ codes "y" ∷ []) }
    ensures same { IsNoCommand (codes "check" ∷ codes "--on=x" ∷ codes "--on=x" ∷ codes "a"
        ∷ []) }
    ensures two { IsNoCommand (codes "check" ∷ codes "a" ∷ codes "--on" ∷ codes "x" ∷ codes "y"
        ∷ []) }
    ensures hyphen { IsNoCommand (codes "check" ∷ codes "a" ∷ codes "--on" ∷ codes "-x" ∷ []) }
    ensures order { IsNoCommand (codes "check" ∷ codes "a" ∷ codes "--on" ∷ codes "--order"
        ∷ codes "unit" ∷ []) }
    ensures short { IsNoCommand (codes "check" ∷ codes "a" ∷ codes "-n" ∷ codes "x" ∷ []) }
    ensures cut { IsNoCommand (codes "check" ∷ codes "a" ∷ codes "--o" ∷ codes "x" ∷ []) }
    ensures alone { IsNoCommand (codes "check" ∷ codes "--on" ∷ codes "x" ∷ []) }
{}

/// Words behind `derive` that are refused.
pub fn refused_derivations()
    ensures none { IsNoCommand (codes "derive" ∷ []) }
    ensures two { IsNoCommand (codes "derive" ∷ codes "a" ∷ codes "b" ∷ []) }
    ensures order { IsNoCommand (codes "derive" ∷ codes "a" ∷ codes "--order" ∷ codes "unit" ∷ []) }
    ensures on { IsNoCommand (codes "derive" ∷ codes "a" ∷ codes "--on" ∷ codes "x" ∷ []) }
    ensures help { IsNoCommand (codes "derive" ∷ codes "--help" ∷ []) }
{}

/// First words that name no command.
pub fn other_first_words()
    ensures none { IsNoCommand [] }
    ensures case { IsNoCommand (codes "Check" ∷ codes "a" ∷ []) }
    ensures option { IsNoCommand (codes "--order" ∷ codes "unit" ∷ codes "check" ∷ codes "a" ∷ []) }
    ensures help { IsNoCommand (codes "help" ∷ []) }
{}
