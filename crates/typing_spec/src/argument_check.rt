//! Checks of the texts that extension values are made of.

ghost use Rattle.std.specs.Prelude.{◌≡◌, IfOk};
ghost use Rattle.typing_spec.specs.Signatures.{is_readable};
ghost use Rattle.typing_spec.specs.Arguments.{constructor_of, value_text, message};

use policy_values::{Quoted, Text, read_datetime, read_decimal, read_duration, read_ip};
use std::alloc::{AllocError, Global};

/// Which values the text of a literal argument has to stand for.
#[derive(Clone, Copy, Debug, PartialEq, Eq)]
pub enum ArgumentCheck {
    /// A decimal.
    Decimal,
    /// A range of IP addresses.
    Ip,
    /// A point in time.
    Datetime,
    /// A duration.
    Duration,
}

impl ArgumentCheck {
    // Whether the text stands for such a value.
    pub(crate) fn reads(self, text: &str) -> bool
        ensures { result ≡ is_readable (constructor_of self) text.now }
    {
        match self {
            ArgumentCheck::Decimal => read_decimal(text).is_some(),
            ArgumentCheck::Ip => read_ip(text).is_some(),
            ArgumentCheck::Datetime => read_datetime(text).is_some(),
            ArgumentCheck::Duration => read_duration(text).is_some(),
        }
    }

    // How such a value is called.
    fn value_text(self) -> &'static str
        ensures { result.now ≡ value_text self }
    {
        match self {
            ArgumentCheck::Decimal => "a decimal value",
            ArgumentCheck::Ip => "IP address",
            ArgumentCheck::Datetime => "a datetime value",
            ArgumentCheck::Duration => "a duration value",
        }
    }

    // What there is to say of a text that stands for no such value.
    pub(crate) fn message(self, alloc: Global, text: &Text) -> Result<Text, AllocError>
        ensures { IfOk result (λ t. t ≡ message self text.now) }
    {
        let value = self.value_text();
        let text = Quoted(text);
        let message = format!(in alloc; "Failed to parse as {value}: `\"{text}\"`")?;
        Text::from_string(message)
    }
}
