// Options and words of a command, as data.
use clap::builder::ValueParser;

/// An option, or a word without one, that a command may be given.
#[derive(Clone, Copy)]
pub(crate) struct ArgRow {
    /// The name of the option behind two hyphens. By it the orders ask for the value, also for that of a word.
    pub(crate) name: &'static str,
    pub(crate) form: Form,
    pub(crate) help: &'static str,
    pub(crate) long_help: &'static str,
    /// All else that holds of it.
    pub(crate) rules: &'static [Rule],
}

/// The form of an argument. The text is the name of its value in the help.
#[derive(Clone, Copy)]
pub(crate) enum Form {
    /// An option without a value: it is given or not.
    Flag,
    /// An option with a value.
    Option(&'static str),
    /// A word without an option.
    Word(&'static str),
}

/// A rule for an argument.
#[derive(Clone, Copy)]
pub(crate) enum Rule {
    /// The option has this letter, too.
    Short(char),
    /// The value may begin with a hyphen.
    AnyWord,
    /// There is one word or more.
    Several,
    /// This parser takes the value.
    Parsed(ValueParser<'static>),
    /// The value where the words leave it out.
    Default(&'static str),
    /// It may not be left out.
    Required,
    /// With these others it is refused.
    Conflicts(&'static [&'static str]),
    /// Without these others it is refused.
    Needs(&'static [&'static str]),
    /// Where one of these is given, it may be left out, and else not.
    Unless(&'static [&'static str]),
}
