ghost use Rattle.std.specs.Prelude.{◌≡◌, ◌++◌, [], OnOk, string_bytes, codes};

use std::alloc::{AllocError, Global};
use std::marker::Model;

/// A text that is being written. Contracts see its bytes.
#[derive(Debug, Drop)]
pub(crate) struct Page {
    text: String,
}

impl Model for Page {
    ghost use Rattle.std.specs.Prelude.{List, ℕ, string_bytes};
    ghost use Rattle.std.specs.Coded.{coded_list, coded_ℕ};

    ghost Value = { List ℕ };

    ghost coded = { coded_list coded_ℕ };

    ghost view = { λ p. string_bytes p.text };
}

impl Page {
    /// The empty text. It takes no memory.
    pub(crate) fn new(alloc: Global) -> Page
        ensures { result ≡ [] }
    {
        Page {
            text: String::new(alloc),
        }
    }

    /// This text after what is written.
    pub(crate) fn write(&mut self, text: &str) -> Result<(), AllocError>
        ensures { OnOk result (self.new ≡ self.old ++ text.now) }
    {
        self.text.push_str(text)
    }

    /// The beginning of a binder, up to its type: its sign, its name and a mark.
    pub(crate) fn begin(&mut self, sign: &str, name: &str, mark: &str) -> Result<(), AllocError>
        ensures { OnOk result (self.new ≡ self.old ++ (sign.now ++ (name.now ++ mark.now))) }
    {
        self.text.push_str(sign)?;
        self.text.push_str(name)?;
        self.text.push_str(mark)
    }

    /// The whole text.
    pub(crate) fn into_text(self) -> String
        ensures { string_bytes result ≡ self }
    {
        let Page { text } = self;
        text
    }
}
