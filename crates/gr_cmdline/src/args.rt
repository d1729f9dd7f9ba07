// What is given to a command.
ghost use Rattle.std.specs.Prelude.{◌≡◌, ◌++◌, ◌∷◌, [], false, IsUtf8, option_map, string_bytes, true};
ghost use Rattle.std.specs.List.{AllByRecursion};
ghost use Rattle.gr_cmdline.specs.declared.param.Param.TheVariants.{Values};
ghost use Rattle.gr_cmdline.specs.Arguments.{IsText, data_value, unless_empty, value_of};

use super::Param;
use gr_base::Bytes;
use std::alloc::Global;
use std::marker::Model;

/// The values that are given to a command, and the suffix of the path that named it.
#[derive(Drop)]
pub struct Args {
    given: Vec<(Param, Bytes)>,
    // Load data from the lines behind a load; they are never empty.
    loaded: String,
    suffix: Bytes,
}

impl Model for Args {
    ghost use Rattle.std.specs.Prelude.{◌++◌, IsUtf8, string_bytes};
    ghost use Rattle.std.specs.List.{AllByRecursion};
    ghost use Rattle.gr_cmdline.specs.Arguments.{Arguments, IsText, data_value, unless_empty};

    ghost Value = { Arguments };

    ghost view = { λ args. record {
      suffix = unless_empty args.suffix;
      given = args.given.items ++ data_value (unless_empty (string_bytes args.loaded));
    } };

    ghost invariant = { λ args. AllByRecursion (λ value. IsText value.1) args.given.items × IsUtf8 args.suffix };
}

impl Args {
    ghost use Rattle.gr_cmdline.specs.Arguments.{AreTexts, is_filled, is_given, value_of};

    /// The value of a parameter, where one is given that is not empty. Load data from the lines behind a load are the
    /// value of [`Param::Values`].
    pub fn get(&self, param: Param) -> Option<&str>
        ensures { option_map (λ text. text.now) result ≡ value_of self.now.given param }
    {
        match value_among(self.given.as_slice(), param) {
            Some(value) => Some(value),
            None => data_as(self.loaded.as_str(), param),
        }
    }

    /// The suffix of the path that named the command, where it is not empty.
    pub fn suffix(&self) -> Option<&str>
        ensures { option_map (λ text. text.now) result ≡ self.now.suffix }
    {
        unless_empty(self.suffix.as_text())
    }

    /// Whether a parameter is given.
    pub(crate) fn is_given(&self, param: Param) -> bool
        ensures value { result ≡ is_given self.now.given param }
        ensures texts { AreTexts self.now }
    {
        let _given = &self.given;
        self.get(param).is_some()
    }

    /// What is given, of which no value is empty; takes no memory.
    pub(crate) fn new(alloc: Global, given: Vec<(Param, Bytes)>, suffix: Bytes) -> Args
        requires given { AllByRecursion (λ value. IsText value.1) given.items }
        requires suffix { IsUtf8 suffix }
        ensures { result ≡ record { suffix = unless_empty suffix; given = given.items } }
    {
        Args {
            given,
            loaded: String::new(alloc),
            suffix,
        }
    }

    /// With load data, where no values are given.
    pub(crate) fn with_data(self, text: String) -> Args
        requires none { is_given self.given Values ≡ false }
        requires filled { is_filled (string_bytes text) ≡ true }
        ensures { result ≡ record { suffix = self.suffix; given = self.given ++ (Values, string_bytes text) ∷ [] } }
    {
        Args {
            given: self.given,
            loaded: text,
            suffix: self.suffix,
        }
    }
}

/// A text, where it is not empty.
fn unless_empty(text: &str) -> Option<&str>
    ensures { option_map (λ given. given.now) result ≡ unless_empty text.now }
{
    if text.is_empty() { None } else { Some(text) }
}

/// The value of a parameter among these.
fn value_among(given: &[(Param, Bytes)], param: Param) -> Option<&str>
    requires { AllByRecursion (λ value. IsText value.1) given.now }
    ensures { option_map (λ text. text.now) result ≡ value_of given.now param }
{
    let mut rest = given;
    'values: while let [value, others @ ..] = rest {
        if value.0.is_same(param) {
            return Some(value.1.as_text());
        }
        rest = others;
    }
    None
}

/// Load data as the value of a parameter, where there are some.
fn data_as(loaded: &str, param: Param) -> Option<&str>
    ensures { option_map (λ text. text.now) result ≡ value_of (data_value (unless_empty loaded.now)) param }
{
    if Param::Values.is_same(param) {
        unless_empty(loaded)
    } else {
        None
    }
}
