use std::marker::Brand;

/// Which text runs and readers are of. A call picks it, so that values of one type are of one text.
pub(crate) trait Known {
    ghost use Rattle.std.specs.Prelude.{ℕ, List, Option};
    ghost use Rattle.jx_run.specs.declared.texts.settings.Settings.{Settings};

    /// The bytes of the text, where they are known.
    ghost text: { Option (List ℕ) };

    /// The settings by which it is read.
    ghost settings: { Settings };
}

impl Known for Brand {
    ghost use Rattle.std.specs.Prelude.{None};
    ghost use Rattle.jx_run.specs.declared.texts.settings.FrontMark.TheVariants.{Refused};
    ghost use Rattle.jx_run.specs.declared.texts.settings.NameRule.TheVariants.{Any};

    ghost text = { None };

    ghost settings = { record { depth = 0; mark = Refused; names = Any } };
}
